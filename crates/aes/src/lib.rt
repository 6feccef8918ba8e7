// AES encryption with keys of 16 and 32 bytes, FIPS 197; no decryption. Blocks, keys and schedules are bytes in the order of the input.
#![tactic(auto)]

ghost use Rattle.std.specs.Prelude.{◌≤◌};

mod expansion;
mod rounds;

// A schedule: a round key of 16 bytes before the first round and one for each round. Its length is in its type, so that no
// schedule can claim another number of rounds.
#[derive(Clone, Copy)]
pub struct Schedule<const N: usize> {
    pub bytes: [u8; N],
    pub ghost has_a_round: { 32 ≤ N },
}
