// dot by 32-bit limbs (mul32.rs): nine carryless products and nine of the reversed words, then four folds. It shares no step
// with mul64: multiply_limbs and times_inverse alone are alike there, and a trait for both widths is longer than they are, as lib.rt says.
ghost use Rattle.std.specs.Prelude.{◌≡◌, ◌+◌, ◌*◌, ◌/◌, ◌%◌, ◌^◌, ◌<◌, map};
ghost use Rattle.gf2.specs.Carryless.{clmul, rev};
ghost use Rattle.gf2.specs.Polyval.{dot, reduce, x_inv128};
ghost use Rattle.word.specs.Words.{words_of};
ghost use Rattle.limbs.specs.Value.{value};
ghost use Rattle.limbs.specs.Limbs32.{tail32, value_of32, product_of32, words32_of, quarters_of, columns_of_pairs, columns_of};

use word::Words;

// The four words of a pair, the low one first.
fn cut(e: Words) -> [u32; 4]
    ensures { result ≡ quarters_of e }
{
    [
        (e.lo & 0xffff_ffff) as u32,
        (e.lo >> 32) as u32,
        (e.hi & 0xffff_ffff) as u32,
        (e.hi >> 32) as u32,
    ]
}

// Each word with its bits in the opposite order. `map` asks that the words fit in memory, so there is a limit to them.
fn reversed<const N: usize>(words: [u32; N]) -> [u32; N]
    requires { N < 8 }
    ensures { result ≡ map (rev 32) words.entry }
{
    words.map(word::reverse32)
}

// The low word of each column of the product of a0 + x^32 a1 and b0 + x^32 b1. Karatsuba: one product of sums in place of the two across.
// The four words are not paired: pairs would have to be indexed in every formula here, and be made in every call from four places of arrays.
fn multiply_limbs32(a0: u32, a1: u32, b0: u32, b1: u32) -> [u32; 3]
    ensures { result ≡ columns_of_pairs a0 a1 b0 b1 }
{
    let z0 = word::bmul32(a0, b0);
    let z1 = word::bmul32(a1, b1);
    let z2 = word::bmul32(a0 ^ a1, b0 ^ b1);
    [z0, z2 ^ z0 ^ z1, z1]
}

// Karatsuba once more, on pairs of words: the low words of the seven columns.
fn multiply_columns(a: [u32; 4], b: [u32; 4]) -> [u32; 7]
    ensures { result ≡ columns_of a b }
{
    let l = multiply_limbs32(a[0], a[1], b[0], b[1]);
    let h = multiply_limbs32(a[2], a[3], b[2], b[3]);
    let m = multiply_limbs32(a[0] ^ a[2], a[1] ^ a[3], b[0] ^ b[2], b[1] ^ b[3]);
    [
        l[0],
        l[1],
        l[2] ^ l[0] ^ h[0] ^ m[0],
        l[1] ^ h[1] ^ m[1],
        h[0] ^ l[2] ^ h[2] ^ m[2],
        h[1],
        h[2],
    ]
}

// The words of v (x^32 + x^31 + x^30 + x^25), the low one first: x^-32 times v, less a shift of two words.
fn times_inverse32(v: u32) -> [u32; 2]
    ensures { result ≡ words32_of (clmul tail32 v) }
{
    [
        (v << 31) ^ (v << 30) ^ (v << 25),
        v ^ (v >> 1) ^ (v >> 2) ^ (v >> 7),
    ]
}

// Two halves as a word.
fn join(lo: u32, hi: u32) -> u64
    ensures { result ≡ hi * 2 ^ 32 + lo }
{
    u64::from(hi) << 32 | u64::from(lo)
}

// An unreduced product of 256 bits, the low word first, times x^-128. Each fold changes words that later ones read.
fn mont_reduce32(v: [u32; 8]) -> Words
    ensures { result ≡ words_of (reduce (clmul (value_of32 v) x_inv128)) }
{
    let a = times_inverse32(v[0]);
    let v3 = v[3] ^ a[0];
    let b = times_inverse32(v[1]);
    let v4 = v[4] ^ a[1] ^ b[0];
    let c = times_inverse32(v[2]);
    let v5 = v[5] ^ b[1] ^ c[0];
    let d = times_inverse32(v3);
    let v6 = v[6] ^ c[1] ^ d[0];
    let v7 = v[7] ^ d[1];
    Words {
        lo: join(v4, v5),
        hi: join(v6, v7),
    }
}

// The whole product, the low word first. Reversed factors have the reversed product, one bit off: from it the high words.
fn karatsuba_mul32(a: Words, b: Words) -> [u32; 8]
    ensures { result ≡ product_of32 (clmul (value a) (value b)) }
{
    let h = cut(a);
    let y = cut(b);
    let z = multiply_columns(h, y);
    let u = reversed(multiply_columns(reversed(h), reversed(y)));
    [
        z[0],
        (u[0] >> 1) ^ z[1],
        (u[1] >> 1) ^ z[2],
        (u[2] >> 1) ^ z[3],
        (u[3] >> 1) ^ z[4],
        (u[4] >> 1) ^ z[5],
        (u[5] >> 1) ^ z[6],
        u[6] >> 1,
    ]
}

// As mul64's dot answers.
pub fn dot32(a: Words, b: Words) -> Words
    ensures { result ≡ words_of (dot (value a) (value b)) }
{
    mont_reduce32(karatsuba_mul32(a, b))
}
