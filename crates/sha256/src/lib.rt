// SHA-256 (FIPS 180-4) of at most 65,536 bytes.
#![tactic(auto)]

ghost use Rattle.std.specs.Prelude.{◌≡◌, ◌≤◌, length};
ghost use Rattle.sha256.specs.Answer.{answer_of, hash_answer};
ghost use Rattle.sha256.specs.Digest.{sha256};

mod bytes;
mod state;
mod step;

pub use bytes::digest;
pub use state::Sha256;
pub use step::{hash_after, value_at};

// A message has more bytes than its limit.
#[derive(Clone, Copy, Debug, PartialEq, Eq)]
pub struct TooLong;

// Its number as a refusal.
impl From<TooLong> for u32 {
    ghost from_gives = { λ _ n. n ≡ 2 };

    fn from(_: TooLong) -> u32 {
        2
    }
}

// The digest of at most 65,536 bytes.
#[tactic(auto, using(crate::proofs::Feeding::fed))]
pub fn hash(bytes: &[u8]) -> Result<[u8; 32], TooLong>
    ensures answer { answer_of result ≡ hash_answer bytes.now }
    ensures within { length bytes.now ≤ 65536 → result ≡ Ok (sha256 bytes.now) }
{
    if bytes.len() <= 65536 {
        Ok(Sha256::new().feed(bytes).finish())
    } else {
        Err(TooLong)
    }
}
