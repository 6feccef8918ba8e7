// The product of the field of RFC 8452, section 3, on pairs of words: by limbs of 64 bits and by limbs of 32 bits. The two share no code: a trait
// over both widths, with a law for each product, reversal, sum and shift, would be longer than multiply_limbs and times_inverse, the steps alike.
#![tactic(auto)]

pub mod mul32;
pub mod mul64;
