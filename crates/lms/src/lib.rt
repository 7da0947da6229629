// The signature check of RFC 8554: LMS type 6 (SHA-256, height 10) over LM-OTS type 4 (w = 8, 34 chains).
#![tactic(auto)]

ghost use Rattle.std.specs.Prelude.{◌≡◌, ◌≤◌, ◌<◌, length, IsOk};
ghost use Rattle.lms.specs.Layout.{leaf};
ghost use Rattle.lms.specs.Check.{verified_of, check_of, answer_of};

mod layout;
mod one_time;
mod place;
mod tree;

pub use layout::typed_key;
use layout::{path_of, right_types};
pub use one_time::{
    Walked, chain, chain_start, digits_of, leaf_key, message_hash, numbered_start, step_count,
};
pub use place::{Place, begun};
pub use sha256::TooLong;
use tree::climbed;
pub use tree::{inner_node, leaf_node, parent};
use wire::{array_at, same, u32_at};

// What a check comes to: how many chain steps were made, and the leaf of a good signature.
#[derive(Clone, Copy)]
pub struct Outcome {
    pub steps: u32,
    pub leaf: Option<u32>,
}

// The check of a well-formed signature of a message that is short enough.
fn verified(key: &[u8; 56], message: &[u8], signature: &[u8; 1452]) -> Outcome
    requires { (length message.now ≤ 1024) × (leaf signature.now < 1024) }
    ensures { answer_of (Ok result) ≡ verified_of key.now message.now signature.now }
{
    let id = array_at(key, 8);
    let number = u32_at(signature, 0);
    let leaf = Place { id, number };
    let hash = message_hash(leaf, array_at(signature, 8), message);
    let walked = leaf_key(leaf, hash, signature);
    let node = Place {
        id,
        number: 1024 + number,
    };
    let top = climbed(node, leaf_node(node, walked.key), path_of(signature));
    let good = same(&top, &array_at(key, 24));
    Outcome {
        steps: walked.steps,
        leaf: good.then_some(number),
    }
}

// Whether signature is the signature of message under key; a message over 1,024 bytes is too long.
pub fn check(key: &[u8], message: &[u8], signature: &[u8]) -> Result<Outcome, TooLong>
    ensures answer { answer_of result ≡ check_of key.now message.now signature.now }
    ensures within { length message.now ≤ 1024 → IsOk result }
{
    if 1024 < message.len() {
        return Err(TooLong);
    }
    match (key.as_array(), signature.as_array()) {
        (Some(key), Some(signature)) if right_types(key, signature) => {
            Ok(verified(key, message, signature))
        }
        _ => Ok(Outcome {
            steps: 0,
            leaf: None,
        }),
    }
}
