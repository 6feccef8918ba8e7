// dot by 64-bit limbs (mul64.rs): three carryless products and three of the reversed words, then two folds.
ghost use Rattle.std.specs.Prelude.{◌≡◌, map};
ghost use Rattle.gf2.specs.Carryless.{clmul, rev};
ghost use Rattle.gf2.specs.Polyval.{reduce, x_inv64, x_inv128, dot};
ghost use Rattle.word.specs.Words.{words_of};
ghost use Rattle.limbs.specs.Value.{value};
ghost use Rattle.limbs.specs.Limbs64.{value_of, product_of, columns_of};

use word::Words;

// The low word of each column of the product of a0 + x^64 a1 and b0 + x^64 b1. Karatsuba: one product of sums in place of the two across.
// The four words are not paired: each formula names them, and a pair would be indexed in all of them.
fn multiply_limbs(a0: u64, a1: u64, b0: u64, b1: u64) -> [u64; 3]
    ensures { result ≡ columns_of a0 a1 b0 b1 }
{
    let z0 = word::bmul64(a0, b0);
    let z1 = word::bmul64(a1, b1);
    let z2 = word::bmul64(a0 ^ a1, b0 ^ b1);
    [z0, z2 ^ z0 ^ z1, z1]
}

// Each word with its bits in the opposite order.
fn reversed_columns(columns: [u64; 3]) -> [u64; 3]
    ensures { result ≡ map (rev 64) columns }
{
    columns.map(word::reverse64)
}

// x^-64 times v: the words of v (x^64 + x^63 + x^62 + x^57).
fn times_inverse(v: u64) -> Words
    ensures { result ≡ words_of (clmul x_inv64 v) }
{
    Words {
        lo: (v << 63) ^ (v << 62) ^ (v << 57),
        hi: v ^ (v >> 1) ^ (v >> 2) ^ (v >> 7),
    }
}

// An unreduced product of 256 bits, the low word first, times x^-128. The first fold changes the word that the second one reads.
fn mont_reduce(v: [u64; 4]) -> Words
    ensures { result ≡ words_of (reduce (clmul (value_of v) x_inv128)) }
{
    let a = times_inverse(v[0]);
    let v1 = v[1] ^ a.lo;
    let v2 = v[2] ^ a.hi;
    let b = times_inverse(v1);
    Words {
        lo: v2 ^ b.lo,
        hi: v[3] ^ b.hi,
    }
}

// The whole product, the low word first. Reversed factors have the reversed product, one bit off: from it the high words.
fn karatsuba_mul(a: Words, b: Words) -> [u64; 4]
    ensures { result ≡ product_of (clmul (value a) (value b)) }
{
    let h0r = word::reverse64(a.lo);
    let h1r = word::reverse64(a.hi);
    let y0r = word::reverse64(b.lo);
    let y1r = word::reverse64(b.hi);
    let z = multiply_limbs(a.lo, a.hi, b.lo, b.hi);
    let u = reversed_columns(multiply_limbs(h0r, h1r, y0r, y1r));
    [z[0], (u[0] >> 1) ^ z[1], (u[1] >> 1) ^ z[2], u[2] >> 1]
}

// a b x^-128 (RFC 8452, section 3)
pub fn dot(a: Words, b: Words) -> Words
    ensures { result ≡ words_of (dot (value a) (value b)) }
{
    mont_reduce(karatsuba_mul(a, b))
}
