// AES-GCM-SIV, RFC 8452 sections 4 and 5: sealing and opening with keys of 16 and 32 bytes.
#![tactic(auto)]

ghost use Rattle.std.specs.Prelude.{◌≡◌, cond, ◌++◌, ◌+◌, ◌≤◌, length, drop};
ghost use Rattle.octets.specs.Strings.{same_bytes};
ghost use Rattle.modes.specs.Mode.{sealed_by};
ghost use Rattle.siv_parts.specs.Keyed.{tag_by, mask_by};
ghost use Rattle.answer.specs.Answers.{done, tag_differs};
ghost use Rattle.answer.specs.Reasons.{answer_of};
ghost use Rattle.sealing.specs.Calls.{written};
ghost use Rattle.sealing.specs.Siv.{Seals, Opens};

use aead::lengths;
use answer::Reason;
use siv_parts::counter;
use siv_parts::keys::Keys;

// A text, masked under a tag, goes to the front of out. Sealing and opening both write so.
fn put_masked(keys: &Keys, tag: [u8; 16], text: &[u8], out: &mut [u8])
    requires { length text.now ≤ length out.old }
    ensures { out.new ≡ mask_by keys.now tag text.now ++ drop (length text.now) out.old }
{
    octets::copy(text, out);
    let n = text.len();
    counter::mask(&keys.cipher, counter::counter_block(tag), &mut out[..n]);
}

// The sealed part goes to the front of out: the masked text, then the tag.
fn put_sealed(keys: &Keys, ad: &[u8], text: &[u8], out: &mut [u8])
    requires { length text.now + 16 ≤ length out.old }
    ensures { out.new ≡ sealed_by (mask_by keys.now) (tag_by keys.now ad.now) text.now ++ drop (length text.now + 16) out.old }
{
    let t = keys.text_tag(ad, text);
    put_masked(keys, t, text, out);
    let n = text.len();
    octets::copy(&t, &mut out[n..]);
}

// Whether the text that a body hides has the tag that came with it. It is not lent the output. Tag and body stay two parameters, in the
// order of the definitions: the contracts name each by itself.
fn is_authentic(keys: &Keys, ad: &[u8], tag: [u8; 16], body: &[u8]) -> bool
    ensures { result ≡ same_bytes (tag_by keys.now ad.now (mask_by keys.now tag body.now)) tag }
{
    octets::same_tag(keys.body_tag(ad, tag, body), tag)
}

// The text that a body hides goes to the front of out, once its tag has agreed; else out stays as it was.
fn put_opened(
    keys: &Keys,
    ad: &[u8],
    tag: [u8; 16],
    body: &[u8],
    out: &mut [u8],
) -> Result<(), Reason>
    requires { length body.now ≤ length out.old }
    ensures answer { answer_of result ≡ cond (same_bytes (tag_by keys.now ad.now (mask_by keys.now tag body.now)) tag) done tag_differs }
    ensures memory { out.new ≡ written (answer_of result) (mask_by keys.now tag body.now) out.old }
{
    if !is_authentic(keys, ad, tag, body) {
        return Err(Reason::TagDiffers);
    }
    put_masked(keys, tag, body, out);
    Ok(())
}

// Seals a plaintext: out gets the ciphertext and the tag. Refuses by 1, 2, 4, 5, 7, with out as it was.
pub fn seal(
    key: &[u8],
    nonce: &[u8],
    ad: &[u8],
    plaintext: &[u8],
    out: &mut [u8],
) -> Result<(), Reason>
    ensures { Seals key.now nonce.now ad.now plaintext.now out.old (answer_of result) out.new }
{
    lengths::check_seal(key.len(), nonce.len(), ad.len(), plaintext.len(), out.len())?;
    let keys = Keys::derive(key, *nonce.as_array().unwrap());
    put_sealed(&keys, ad, plaintext, out);
    Ok(())
}

// Opens a sealed part: out gets the plaintext, once the tag has agreed. Refuses by 1, 2, 4, 6, 5, 7, 8, with out as it
// was.
pub fn open(
    key: &[u8],
    nonce: &[u8],
    ad: &[u8],
    sealed: &[u8],
    out: &mut [u8],
) -> Result<(), Reason>
    ensures { Opens key.now nonce.now ad.now sealed.now out.old (answer_of result) out.new }
{
    lengths::check_open(key.len(), nonce.len(), ad.len(), sealed.len(), out.len())?;
    let keys = Keys::derive(key, *nonce.as_array().unwrap());
    let (body, tag) = sealed.split_last_chunk().unwrap();
    put_opened(&keys, ad, *tag, body, out)
}
