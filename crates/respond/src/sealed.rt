// Requests on GHASH, on the cipher and on sealing.
ghost use Rattle.std.specs.Prelude.{◌≡◌};
ghost use Rattle.answer.specs.Reasons.{answer_of};
ghost use Rattle.ghash.specs.Calls.{hashed_told};

use aead::cipher::Cipher;
use answer::Reason;
use protocol::said::Said;
use protocol::words::Asked;

// The number of a call's answer.
fn answer_said<T>(returned: &Result<T, Reason>) -> Said {
    Said::numbers(&[u64::from(answer::number(returned))])
}

// The tag; zeros where the call refused.
fn tag_or_zeros(hashed: Result<[u8; 16], Reason>) -> [u8; 16]
    ensures { hashed_told hashed ≡ record { answer = answer_of hashed; tag = result } }
{
    match hashed {
        Ok(tag) => tag,
        Err(_) => [0; 16],
    }
}

// GHASH of whole blocks: its tag lies in the space.
fn ghash_of(key: &[u8], blocks: &[u8], space: &mut [u8]) -> Said {
    let hashed = ghash::ghash(key, blocks);
    octets::copy(&tag_or_zeros(hashed), space);
    answer_said(&hashed)
}

// One block under the cipher, which lies in the space.
fn encrypt(key: &[u8], block: [u8; 16], space: &mut [u8]) -> Said {
    octets::copy(&Cipher::under(key).encrypt(block), space);
    Said::numbers(&[])
}

// Requests whose words are a key and blocks.
pub(crate) fn of_blocks(asked: &Asked, space: &mut [u8]) -> Said {
    let key = asked.bytes(0);
    match asked.call {
        b'g' => ghash_of(key, asked.bytes(1), space),
        _ => encrypt(key, asked.block(1), space),
    }
}

// Requests to seal and to open. What they write goes to the room.
pub(crate) fn seal_or_open(asked: &Asked, room: &mut [u8]) -> Said {
    let key = asked.bytes(0);
    let nonce = asked.bytes(1);
    let ad = asked.bytes(2);
    let text = asked.bytes(3);
    answer_said(&match asked.call {
        b's' => siv::seal(key, nonce, ad, text, room),
        _ => siv::open(key, nonce, ad, text, room),
    })
}
