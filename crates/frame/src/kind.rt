// Whether a kind is known, and whether it may have a sealed part of some length, by the table of kinds (document
// 01, "Frame"). A kind comes as any u8: a narrower type would ask more of callers. Assumes nothing.
ghost use Rattle.std.specs.Prelude.{◌≡◌, Some};
ghost use Rattle.framing.specs.Kinds.{row_told, allows, is_known, is_allowed};

use framing::kind::{Row, row_of};

// Whether a sealed part of this length, a plaintext and a tag of 16, may stand in a frame of this row.
pub(crate) fn allows(row: Row, sealed: usize) -> bool
    ensures { result ≡ allows (Some (row_told row)) sealed }
{
    if sealed < 16 {
        return false;
    }
    let n = sealed - 16;
    // The tests that need no division come first: a scan would spend most of its time on that.
    row.least <= n
        && n <= row.most
        && (n == row.least || row.step == 1 || (n - row.least).is_multiple_of(row.step))
}

// Whether the table has a kind of this number. front_of, which needs the row too, asks row_of; this is promised to callers.
#[tactic(auto, using(framing::proofs::Told::told_known))]
pub fn is_known(kind: u8) -> bool
    ensures { result ≡ is_known kind }
{
    row_of(kind).is_some()
}

// Whether a sealed part of this length may stand in a frame of this kind.
#[tactic(auto, using(framing::proofs::Told::told_allows, framing::proofs::Told::told_none))]
pub fn is_allowed(kind: u8, sealed: usize) -> bool
    ensures { result ≡ is_allowed kind sealed }
{
    match row_of(kind) {
        Some(row) => allows(row, sealed),
        None => false,
    }
}
