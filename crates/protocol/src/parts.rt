// Parts of byte strings.
ghost use Rattle.std.specs.Prelude.{◌≡◌, ◌+◌, length};
ghost use Rattle.protocol.specs.Parts.{part_of};

// The part of s from a to e, or nothing where there is no such part.
pub(crate) fn part(s: &[u8], a: usize, e: usize) -> &[u8]
    ensures { result.now ≡ part_of s.now a e }
{
    s.get(a..e).unwrap_or(&[])
}

// s up to where b first stands, and from there on.
pub(crate) fn before(s: &[u8], b: u8) -> (&[u8], &[u8])
    ensures { length result.0.now + length result.1.now ≡ length s.now }
{
    s.split_at(s.iter().position(|c| *c == b).unwrap_or(s.len()))
}

// s up to where b first stands, and what stands behind b.
pub(crate) fn cut(s: &[u8], b: u8) -> (&[u8], &[u8]) {
    let (front, rest) = before(s, b);
    (front, rest.get(1..).unwrap_or(&[]))
}
