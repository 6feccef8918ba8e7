// The rounds of the cipher, FIPS 197 section 5.1. SubBytes, ShiftRows and MixColumns are taken at once, from the table of words: a row's
// share of a column is row 0's, turned by as many bytes.
ghost use Rattle.std.specs.Prelude.{◌≡◌, [], ◌∷◌, ◌+◌, ◌-◌, ◌*◌, ◌/◌, ◌%◌, ◌≤◌, length, get_or};
ghost use Rattle.octets.specs.Numbers.{bytes_of};
ghost use Rattle.fips197.specs.Table.{tab};
ghost use Rattle.fips197.specs.Sbox.{sbox};
ghost use Rattle.fips197.specs.Cipher as fips;
ghost use Rattle.aes_tables.specs.Words.{mixed0};
ghost use Rattle.aes.specs.State.{column_row, state_of};

use crate::Schedule;

// A word for each column of the state, its row 0 in the lowest byte.
type State = [u32; 4];

// The state that a block is, or a round key.
fn load(block: &[u8; 16]) -> State
    ensures { state_of result ≡ block.now }
{
    // Four columns written out: as_chunks gives a slice, and through array::from_fn a proof has to follow the closure from call to call.
    let (words, _) = block.as_chunks();
    [
        u32::from_le_bytes(words[0]),
        u32::from_le_bytes(words[1]),
        u32::from_le_bytes(words[2]),
        u32::from_le_bytes(words[3]),
    ]
}

// The state plus a round key.
fn add_round_key(s: State, key: &[u8; 16]) -> State
    ensures { state_of result ≡ fips.add_round_key (state_of s) key.now 0 }
{
    // Four sums written out, as those of a word in the key expansion.
    let k = load(key);
    [s[0] ^ k[0], s[1] ^ k[1], s[2] ^ k[2], s[3] ^ k[3]]
}

// The state as a block again.
fn to_block(s: State) -> [u8; 16]
    ensures { result ≡ state_of s }
{
    let columns = s.map(u32::to_le_bytes);
    *columns.as_flattened().as_array().unwrap()
}

// The table's word for the lowest byte of x.
fn lookup(x: u32) -> u32
    ensures { result ≡ mixed0 (sbox (x % 256)) }
{
    aes_tables::word_table()[(x % 256) as usize]
}

// The lowest byte of x through the S-box: row 1 of its word.
fn sub(x: u32) -> u8
    ensures { result ≡ sbox (x % 256) }
{
    (lookup(x) / 256 % 256) as u8
}

// A column of a round but the last. ShiftRows brings its rows from the columns a, b, c and d: four numbers and no state, since each call
// turns them by one place.
fn column(a: u32, b: u32, c: u32, d: u32) -> u32
    ensures { bytes_of 4 result ≡ fips.mix_column (sbox (column_row 0 a)) (sbox (column_row 1 b)) (sbox (column_row 2 c)) (sbox (column_row 3 d)) }
{
    let p = lookup(a);
    let q = lookup(b >> 8);
    let r = lookup(c >> 16);
    let s = lookup(d >> 24);
    p ^ q.rotate_left(8) ^ r.rotate_left(16) ^ s.rotate_left(24)
}

// SubBytes, ShiftRows and MixColumns of the whole state.
fn columns(s: State) -> State
    ensures { state_of result ≡ fips.mix_columns (fips.shift_rows (fips.sub_bytes (state_of s))) }
{
    let [a, b, c, d] = s;
    [
        column(a, b, c, d),
        column(b, c, d, a),
        column(c, d, a, b),
        column(d, a, b, c),
    ]
}

// A column of the last round, which mixes none.
fn last_column(a: u32, b: u32, c: u32, d: u32) -> u32
    ensures { bytes_of 4 result ≡ sbox (column_row 0 a) ∷ sbox (column_row 1 b) ∷ sbox (column_row 2 c) ∷ sbox (column_row 3 d) ∷ [] }
{
    u32::from_le_bytes([sub(a), sub(b >> 8), sub(c >> 16), sub(d >> 24)])
}

// SubBytes and ShiftRows of the whole state.
fn last_columns(s: State) -> State
    ensures { state_of result ≡ fips.shift_rows (fips.sub_bytes (state_of s)) }
{
    let [a, b, c, d] = s;
    [
        last_column(a, b, c, d),
        last_column(b, c, d, a),
        last_column(c, d, a, b),
        last_column(d, a, b, c),
    ]
}

impl<const N: usize> Schedule<N> {
    // The block encrypted under the schedule, in as many rounds as it has keys for: for every schedule, one that no key has
    // among them.
    pub fn encrypt(&self, block: [u8; 16]) -> [u8; 16]
        ensures { result ≡ fips.cipher (N / 16 - 1) self.now.bytes block }
    {
        let (keys, _) = self.bytes.as_chunks();
        let last = N / 16 - 1;
        let mut s = add_round_key(load(&block), &keys[0]);
        for key in &keys[1..last] {
            s = add_round_key(columns(s), key);
        }
        to_block(add_round_key(last_columns(s), &keys[last]))
    }
}
