// The refusals that lengths decide, in document 01's order. Every mode asks here.
ghost use Rattle.std.specs.Prelude.{◌≡◌, true};
ghost use Rattle.answer.specs.First.{first};
ghost use Rattle.answer.specs.Reasons.{answer_of};
ghost use Rattle.sealing.specs.Calls.{common_refusals, seal_answer, open_answer};

use answer::Reason;

// What sealing and opening ask first: 1, 2, 4.
fn check_common(key: usize, nonce: usize, ad: usize) -> Result<(), Reason>
    ensures { answer_of result ≡ first (common_refusals key nonce ad) }
{
    if key != 16 && key != 32 {
        return Err(Reason::KeyLength);
    }
    if nonce != 12 {
        return Err(Reason::NonceLength);
    }
    if sealing::MAX_AD < ad {
        return Err(Reason::AdTooLong);
    }
    Ok(())
}

// Whether a sealing with these lengths goes ahead, and if not, why. Five numbers, as the definition takes them: each caller has them as five.
pub fn check_seal(
    key: usize,
    nonce: usize,
    ad: usize,
    text: usize,
    room: usize,
) -> Result<(), Reason>
    ensures { answer_of result ≡ seal_answer key nonce ad text room }
{
    check_common(key, nonce, ad)?;
    if sealing::MAX_PLAINTEXT < text {
        return Err(Reason::TextTooLong);
    }
    if room < text + 16 {
        return Err(Reason::NoRoom);
    }
    Ok(())
}

// Whether an opening with these lengths goes on to look at the tag, and if not, why. Five numbers, for the same reason.
pub fn check_open(
    key: usize,
    nonce: usize,
    ad: usize,
    sealed: usize,
    room: usize,
) -> Result<(), Reason>
    ensures { answer_of result ≡ open_answer key nonce ad sealed room true }
{
    check_common(key, nonce, ad)?;
    if sealed < 16 {
        return Err(Reason::SealedTooShort);
    }
    if sealing::MAX_SEALED < sealed {
        return Err(Reason::TextTooLong);
    }
    if room < sealed - 16 {
        return Err(Reason::NoRoom);
    }
    Ok(())
}
