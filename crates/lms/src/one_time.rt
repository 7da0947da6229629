// The one-time signature: the hash of the message, its digits, the chains and the leaf key.
ghost use Rattle.std.specs.Prelude.{◌≡◌, ◌+◌, ◌*◌, ◌-◌, ◌^◌, ◌≤◌, ◌<◌, length, take};
ghost use Rattle.sha256.specs.Digest.{digest_of};
ghost use Rattle.lms.specs.OneTime.{message_hash, deficit, digits, step_count, walk, chain_of, chain_end};
ghost use Rattle.lms.specs.Walked.{chain_start, walked_of};

use crate::place::{Place, begun};
use sha256::{digest, hash_after, value_at};
use sha256_block::Variables;
use wire::{array_at, copy_into, u32_bytes};

// What `leaf_key` answers.
#[derive(Drop)]
pub struct Walked {
    pub key: [u8; 32],
    pub steps: u32,
}

// The hash Q of a message, with the nonce C.
pub fn message_hash(leaf: Place, nonce: [u8; 32], message: &[u8]) -> [u8; 32]
    requires { length message.now ≤ 1024 }
    ensures { result ≡ message_hash leaf.id leaf.number nonce message.now }
{
    begun(leaf, 0x81).feed(&nonce).feed(message).finish()
}

// The sum of 255 minus each byte.
fn deficit(bytes: &[u8]) -> u32
    requires { length bytes.now ≤ 34 }
    ensures sum { result ≡ deficit bytes.now (length bytes.now) }
    ensures most { result ≤ 255 * length bytes.now }
{
    let mut sum: u32 = 0;
    for byte in bytes {
        sum += 255 - u32::from(*byte);
    }
    sum
}

// The 34 digits of Q.
pub fn digits_of(hash: [u8; 32]) -> [u8; 34]
    ensures { result ≡ digits hash }
{
    let checksum = deficit(&hash);
    let mut d = [0u8; 34];
    copy_into(&hash, &mut d, 0);
    d[32] = (checksum / 256) as u8;
    d[33] = (checksum % 256) as u8;
    d
}

// The number of chain steps of Q.
pub fn step_count(hash: [u8; 32]) -> u32
    ensures { result ≡ step_count hash }
{
    deficit(&digits_of(hash))
}

// x after the steps of a chain from one number up to another. The first 22 bytes of start are the identifier, the leaf and the chain's number.
pub fn chain(start: [u8; 23], from: u8, to: u8, x: Variables) -> Variables
    ensures { digest_of result ≡ walk (take 22 start) (to - from) from (digest_of x) }
{
    let mut prefix = start;
    let mut value = x;
    for j in from..to {
        prefix[22] = j;
        value = hash_after(prefix, value);
    }
    value
}

// What each chain's hashes begin with, before the chain's number and the step's.
pub fn chain_start(leaf: Place) -> [u8; 23]
    ensures { result ≡ chain_start leaf.id leaf.number }
{
    let mut start = [0u8; 23];
    start[..16].copy_from_slice(&leaf.id);
    start[16..20].copy_from_slice(&u32_bytes(leaf.number));
    start
}

// What the hashes of chain i begin with, before the step's number.
pub fn numbered_start(leaf: Place, i: usize) -> [u8; 23]
    requires { i < 34 }
    ensures { take 22 result ≡ chain_of leaf.id leaf.number i }
{
    let mut numbered = chain_start(leaf);
    numbered[21] = i as u8;
    numbered
}

// The end of chain i of a signature that has the given string there.
fn chain_end(leaf: Place, i: usize, digit: u8, string: [u8; 32]) -> [u8; 32]
    requires { i < 34 }
    ensures { result ≡ chain_end leaf.id leaf.number i digit string }
{
    digest(chain(numbered_start(leaf, i), digit, 255, value_at(&string, 0)))
}

// The leaf key that a signature gives with Q, and the chain steps on the way.
pub fn leaf_key(leaf: Place, hash: [u8; 32], signature: &[u8]) -> Walked
    requires { 1128 ≤ length signature.now }
    ensures { result ≡ walked_of leaf.id leaf.number hash signature.now }
{
    let d = digits_of(hash);
    let mut state = begun(leaf, 0x80);
    // i is the number of the chain, which its hashes begin with.
    for i in 0..34 {
        let end = chain_end(leaf, i, d[i], array_at(signature, 40 + 32 * i));
        state = state.feed(&end);
    }
    Walked {
        key: state.finish(),
        steps: deficit(&d),
    }
}
