// Sealing and opening for C. Assumes nothing.
ghost use Rattle.sealing.specs.Siv.{Seals, Opens};

// Seals a plaintext: out gets the ciphertext and the tag.
#[unsafe(no_mangle)]
pub extern "C" fn khumbuseal_seal(
    key: &[u8],
    nonce: &[u8],
    ad: &[u8],
    plaintext: &[u8],
    out: &mut [u8],
) -> u8
    ensures { Seals key.now nonce.now ad.now plaintext.now out.old result out.new }
{
    answer::number(&siv::seal(key, nonce, ad, plaintext, out))
}

// Opens a sealed part: out gets the plaintext, once the tag has agreed.
#[unsafe(no_mangle)]
pub extern "C" fn khumbuseal_open(
    key: &[u8],
    nonce: &[u8],
    ad: &[u8],
    sealed: &[u8],
    out: &mut [u8],
) -> u8
    ensures { Opens key.now nonce.now ad.now sealed.now out.old result out.new }
{
    answer::number(&siv::open(key, nonce, ad, sealed, out))
}
