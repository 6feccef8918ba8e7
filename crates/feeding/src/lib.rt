// Document 01, "Feeding and joining" and "Cost": the types that its definitions speak of. The definitions are in specs/, the
// theorems about them in proofs/. No call: the crates polyval, hash and join have them. What a call made stands beside its cost in
// a type of its own, not in a generic pair: that would hide whether word products or dots are counted, and of what.
#![tactic(auto)]

ghost use Rattle.std.specs.Prelude.{◌≡◌};

use field::FieldElement;

// How many powers a key holds.
pub const POWERS: usize = 4;

// A power of H, and the D value that the R/F formulas take with it.
#[derive(Clone, Copy, PartialEq, Eq)]
pub struct Power {
    pub h: FieldElement,
    pub d: FieldElement,
}

// The powers of H, the first one first. Its fields can be altered: a check says whether they belong to H.
#[derive(Clone, Copy, PartialEq, Eq)]
pub struct ExpandedKey {
    pub powers: [Power; POWERS],
}

// A key, and the word products spent on it.
#[derive(Clone, Copy)]
pub struct Expanded {
    pub key: ExpandedKey,
    pub multiplies: u64,
}

// The routes by which blocks are absorbed. Wide multiplies by 64-bit limbs and Narrow by 32-bit limbs; both read H
// alone. Rf takes the key's stored powers and D values, and counts its word products.
#[derive(Clone, Copy)]
pub enum Route {
    Wide,
    Narrow,
    Rf,
}

// The hash record. Its first `count` pending bytes wait for the next call. A buffer with its count beside it: callers may hand
// in a record that claims any count, and document 01 answers for each.
#[derive(Clone, Copy)]
pub struct Hash {
    pub key: ExpandedKey,
    pub acc: FieldElement,
    pub pending: [u8; 16],
    pub count: usize,
}

// The record that a call made, and the word products that it spent.
#[derive(Clone, Copy)]
pub struct Fed {
    pub hash: Hash,
    pub multiplies: u64,
}

// The tag, and the word products spent.
#[derive(Clone, Copy)]
pub struct Finished {
    pub tag: [u8; 16],
    pub multiplies: u64,
}

// The record of both parts, and the dots that joining them spent.
#[derive(Clone, Copy)]
pub struct Joined {
    pub hash: Hash,
    pub dots: u64,
}

// A join told as a feed: what it spent, in dots, stands where a feed has its word products.
impl From<Joined> for Fed {
    ghost from_gives = { λ joined fed. fed ≡ record { hash = joined.hash; multiplies = joined.dots } };

    fn from(joined: Joined) -> Fed {
        Fed {
            hash: joined.hash,
            multiplies: joined.dots,
        }
    }
}
