// The key expansion, FIPS 197 section 5.2, on the schedule's bytes: word i at 4 i.
ghost use Rattle.std.specs.Prelude.{◌≡◌, ◌+◌, ◌-◌, ◌*◌, ◌/◌, ◌≤◌, ◌<◌, length, take};
ghost use Rattle.fips197.specs.Sbox.{sbox};
ghost use Rattle.fips197.specs.KeyExpansion as fips;

use crate::Schedule;

// Word i of w.
fn word(w: &[u8], i: usize) -> [u8; 4]
    requires { 4 * i + 4 ≤ length w.now }
    ensures { result ≡ fips.word w.now i }
{
    *w[4 * i..].first_chunk().unwrap()
}

// Two words added, byte by byte.
fn sum(a: [u8; 4], b: [u8; 4]) -> [u8; 4]
    ensures { result ≡ fips.sum a b }
{
    // Four sums written out: through array::from_fn a proof has to follow the closure from call to call, and the line is no shorter for it.
    [a[0] ^ b[0], a[1] ^ b[1], a[2] ^ b[2], a[3] ^ b[3]]
}

// x^(j - 1), and three zeros.
fn rcon(j: usize) -> [u8; 4]
    ensures { result ≡ fips.rcon j }
{
    let mut x = 1u8;
    for _k in 1..j {
        x = (x << 1) ^ ((x >> 7) * 0x1b);
    }
    [x, 0, 0, 0]
}

// A byte through the S-box.
fn sub_byte(b: u8) -> u8
    ensures { result ≡ sbox b }
{
    aes_tables::sbox_table()[usize::from(b)]
}

// Each byte of a word through the S-box.
fn sub_word(t: [u8; 4]) -> [u8; 4]
    ensures { result ≡ fips.sub_word t }
{
    t.map(sub_byte)
}

// What is added to word i - nk, where t is the word before word i.
fn temp(t: [u8; 4], i: usize, nk: usize) -> [u8; 4]
    requires { 0 < nk }
    ensures { result ≡ fips.temp nk i t }
{
    if i % nk == 0 {
        // RotWord written out: rotate_left turns a slice in place, and so would need a second word and a name for it.
        return sum(sub_word([t[1], t[2], t[3], t[0]]), rcon(i / nk));
    }
    if 6 < nk && i % nk == 4 {
        return sub_word(t);
    }
    t
}

// Makes the words of w from the first nk, which are the key.
fn expand(w: &mut [u8], nk: usize)
    requires { (0 < nk) × (4 * nk ≤ length w.old) × (length w.old ≡ 4 * (length w.old / 4)) }
    ensures { w.new ≡ fips.expand nk (take (4 * nk) w.old) (length w.old / 4 - nk) }
{
    // By place: word i is made of the words i - 1 and i - nk of the same buffer.
    for i in nk..w.len() / 4 {
        let next = sum(word(w, i - nk), temp(word(w, i - 1), i, nk));
        octets::put(w, 4 * i, &next);
    }
}

// The schedule of N bytes of a key of K bytes.
fn expanded<const K: usize, const N: usize>(key: [u8; K]) -> Schedule<N>
    requires { (0 < K / 4) × (K ≤ N) × (32 ≤ N) × (K ≡ 4 * (K / 4)) × (N ≡ 16 * (N / 16)) }
    ensures { result.bytes ≡ fips.key_expansion (K / 4) (N / 16 - 1) key.entry }
{
    let mut bytes = [0u8; N];
    octets::copy(&key, &mut bytes);
    expand(&mut bytes, K / 4);
    Schedule { bytes }
}

// One impl for each length of key: a const argument cannot be computed from another.
impl From<[u8; 16]> for Schedule<176> {
    ghost from_gives = { λ key schedule. schedule.bytes ≡ fips.key_expansion 4 10 key };

    fn from(key: [u8; 16]) -> Schedule<176> {
        expanded::<16, 176>(key)
    }
}

impl From<[u8; 32]> for Schedule<240> {
    ghost from_gives = { λ key schedule. schedule.bytes ≡ fips.key_expansion 8 14 key };

    fn from(key: [u8; 32]) -> Schedule<240> {
        expanded::<32, 240>(key)
    }
}
