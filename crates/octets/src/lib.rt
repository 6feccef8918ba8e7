// Byte strings: copied, put at a place, combined and compared. What they mean is in specs/. Assumes nothing.
#![tactic(auto)]

ghost use Rattle.std.specs.Prelude.{◌≡◌};
ghost use Rattle.octets.specs.Strings.{xor_bytes, copied, same_bytes};
ghost use Rattle.octets.specs.Places.{Puts};

// Adds pad to the front of text, as far as both go. The rest of text stays.
pub fn xor_into(pad: &[u8], text: &mut [u8])
    ensures { text.new ≡ xor_bytes text.old pad.now }
{
    // By place: of what a zip over iter_mut has written a proof knows nothing.
    for i in 0..pad.len().min(text.len()) {
        text[i] ^= pad[i];
    }
}

// Copies src over the front of dst, as much of it as fits. The rest of dst stays.
pub fn copy(src: &[u8], dst: &mut [u8])
    ensures { dst.new ≡ copied src.now dst.old }
{
    // By place: of a length that the compiler doesn't know, copy_from_slice asks C for memmove, and the C library may ask for memcpy and memset alone.
    for i in 0..src.len().min(dst.len()) {
        dst[i] = src[i];
    }
}

// Reads all 16 bytes, whatever the first ones are, and branches on none of them. Nothing is proved of how long it takes.
pub fn same_tag(a: [u8; 16], b: [u8; 16]) -> bool
    ensures { result ≡ same_bytes a b }
{
    let mut differences: u8 = 0;
    for (x, y) in a.iter().zip(&b) {
        differences |= x ^ y;
    }
    differences == 0
}

// Puts s at the place at of out and answers the place behind it. Where out has no room there, it is left
// as it was and the answer is at. The buffer and the place stay apart: `Puts` is promised of both.
pub fn put(out: &mut [u8], at: usize, s: &[u8]) -> usize
    ensures { Puts out.old at s.now out.new result }
{
    if at <= out.len() && s.len() <= out.len() - at {
        copy(s, &mut out[at..]);
        return at + s.len();
    }
    at
}
