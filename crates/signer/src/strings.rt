// The private strings of a leaf, walked along their chains, and the leaf's public value.
ghost use Rattle.std.specs.Prelude.{◌≡◌, ◌<◌};
ghost use Rattle.signer.specs.Strings.{string_of, leaf_public};

use lms::{Place, begun, chain, numbered_start};
use sha256::{digest, hash_after, value_at};

// The string of chain i after the given steps.
pub fn chain_string(leaf: Place, i: usize, steps: u8, seed: [u8; 32]) -> [u8; 32]
    requires { i < 34 }
    ensures { result ≡ string_of seed leaf.id leaf.number i steps }
{
    let mut numbered = numbered_start(leaf, i);
    numbered[22] = 0xff;
    let secret = hash_after(numbered, value_at(&seed, 0));
    digest(chain(numbered, 0, steps, secret))
}

// The public value of a leaf.
pub fn leaf_public(leaf: Place, seed: [u8; 32]) -> [u8; 32]
    ensures { result ≡ leaf_public seed leaf.id leaf.number }
{
    let mut state = begun(leaf, 0x80);
    // i is the number of the chain.
    for i in 0..34 {
        let end = chain_string(leaf, i, 255, seed);
        state = state.feed(&end);
    }
    state.finish()
}
