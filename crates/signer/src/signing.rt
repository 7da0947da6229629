// Signing.
ghost use Rattle.std.specs.Prelude.{◌≡◌, List, [], ◌++◌, ℕ, ◌<◌, ◌≤◌, length, replicate, get_or, OnOk};
ghost use Rattle.wire.specs.Numbers.{bytes};
ghost use Rattle.lms.specs.Layout.{identifier};
ghost use Rattle.lms.specs.Rows.{row};
ghost use Rattle.signer.specs.Signature.{sibling_of, path_of, signed_string, signature_of};
ghost use Rattle.signer.specs.declared.state.Node.{Node};
ghost use Rattle.signer.specs.Answers.{answered, filled, sign_of, signed_as};

use crate::state::{Node, Refusal, Signer};
use crate::strings::chain_string;
use lms::{Place, digits_of, message_hash};
use std::array;
use wire::{array_at, copy_into, u32_bytes};

// Writes the leaf, the one-time type and C over zeros.
fn write_front(signature: &mut [u8; 1452], leaf: u32, nonce: [u8; 32])
    requires { signature.old ≡ replicate 1452 0 }
    ensures { signature.new ≡ bytes 4 leaf ++ bytes 4 4 ++ nonce ++ replicate 1412 0 }
{
    let number = u32_bytes(leaf);
    let four = u32_bytes(4);
    copy_into(&number, signature, 0);
    copy_into(&four, signature, 4);
    copy_into(&nonce, signature, 8);
}

// Writes the 34 strings behind the first 40 bytes.
fn write_strings(signature: &mut [u8; 1452], leaf: Place, digits: [u8; 34], seed: [u8; 32])
    ensures { (a : List ℕ) → length a ≡ 40 → signature.old ≡ a ++ replicate 1412 0
        → signature.new ≡ a ++ row (signed_string seed leaf.id leaf.number digits) 34 ++ replicate 324 0 }
{
    // i is the number of the chain, and the string's place.
    for i in 0..34 {
        let string = chain_string(leaf, i, digits[i], seed);
        copy_into(&string, signature, 40 + 32 * i);
    }
}

// The other child of a node's parent.
fn sibling(node: usize) -> usize
    requires { node < 2048 }
    ensures { (result ≡ sibling_of node) × (result < 2048) }
{
    if node % 2 == 1 { node - 1 } else { node + 1 }
}

// The ten path strings of a leaf.
fn path_of(nodes: &[Node; 2048], leaf: u32) -> [[u8; 32]; 10]
    requires { leaf < 1024 }
    ensures { (i : ℕ) → i < 10 → get_or result i [] ≡ path_of nodes.now leaf i }
{
    array::from_fn(
        |i: usize| -> [u8; 32]
            requires { (i < 10) × (leaf < 1024) }
            ensures { result ≡ path_of nodes.exit.now leaf i }
        {
            let found = nodes[sibling((1024 + leaf as usize) >> i)];
            found.value
        },
    )
}

// Writes the ten path strings behind the first 1,132 bytes.
fn write_path(signature: &mut [u8; 1452], path: [[u8; 32]; 10])
    ensures { (a : List ℕ) → length a ≡ 1132 → signature.old ≡ a ++ replicate 320 0 → signature.new ≡ a ++ row (λ i. get_or path i []) 10 }
{
    for (i, node) in path.iter().enumerate() {
        copy_into(node, signature, 1132 + 32 * i);
    }
}

// Writes a signature by a leaf, whose path is given, over zeros.
fn write_signature(
    signature: &mut [u8; 1452],
    leaf: Place,
    seed: [u8; 32],
    path: [[u8; 32]; 10],
    nonce: [u8; 32],
    message: &[u8],
)
    requires { (length message.now ≤ 1024) × (signature.old ≡ replicate 1452 0) }
    ensures { (nodes : List Node) → ((i : ℕ) → i < 10 → get_or path i [] ≡ path_of nodes leaf.number i)
        → signature.new ≡ signature_of seed leaf.id nodes leaf.number nonce message.now }
{
    let hash = message_hash(leaf, nonce, message);
    let digits = digits_of(hash);
    write_front(signature, leaf.number, nonce);
    write_strings(signature, leaf, digits, seed);
    let six = u32_bytes(6);
    copy_into(&six, signature, 1128);
    write_path(signature, path);
}

// Writes what a signing answers over zeros: in place, since tests/footprint.c holds a signing to 4,096 bytes copied.
#[tactic(auto, using(crate::proofs::Answered::sign_long, crate::proofs::Answered::sign_none))]
fn answer(
    signer: &Signer,
    nonce: &[u8],
    message: &[u8],
    signature: &mut [u8; 1452],
) -> Result<(), Refusal>
    requires { signature.old ≡ replicate 1452 0 }
    ensures signature { answered (filled result signature.new) ≡ (sign_of signer.now nonce.now message.now).signature }
    ensures left { OnOk result (signer.now.next < 1024) }
{
    let nonce = <[u8; 32]>::try_from(nonce)?;
    if 1024 < message.len() {
        return Err(Refusal::Length);
    }
    if 1024 <= signer.next {
        return Err(Refusal::NoLeaf);
    }
    let key = signer.key;
    let id = array_at(&key, 8);
    let leaf = Place {
        id,
        number: signer.next,
    };
    let seed = signer.seed;
    let path = path_of(&signer.nodes, signer.next);
    write_signature(signature, leaf, seed, path, nonce, message);
    Ok(())
}

// Signs a message of at most 1,024 bytes with a C of 32 and the lent signer's next leaf, and moves it to the next. Another length is refused, and then a next
// leaf of 1,024 or more; refused, the signer keeps every value.
pub fn sign(signer: &mut Signer, nonce: &[u8], message: &[u8]) -> Result<[u8; 1452], Refusal>
    ensures signature { answered result ≡ (sign_of signer.old nonce.now message.now).signature }
    ensures signer { signer.new ≡ (sign_of signer.old nonce.now message.now).signer }
{
    let mut signature = [0u8; 1452];
    answer(signer, nonce, message, &mut signature)?;
    signer.next += 1;
    Ok(signature)
}

// The same by value: the signer as it is left, and the signature.
pub fn signed(lent: Signer, nonce: &[u8], message: &[u8]) -> (Signer, Result<[u8; 1452], Refusal>)
    ensures { signed_as result.0 result.1 ≡ sign_of lent nonce.now message.now }
{
    let mut signer = lent;
    let signature = sign(&mut signer, nonce, message);
    (signer, signature)
}
