// What a signer holds, why key making or signing is refused, and what a signing answers to C.
ghost use Rattle.std.specs.Prelude.{◌≡◌};
ghost use Rattle.signer.specs.Answers.{number_of, answered};
ghost use Rattle.signer.specs.declared.state.Refusal.TheVariants.{Length};

use std::array::TryFromSliceError;

// The value of one node of the tree.
#[repr(C)]
#[derive(Clone, Copy)]
pub struct Node {
    pub value: [u8; 32],
}

// The key, the seed of the private strings, the next leaf, and the tree: node r at place r, from the root, 1, to the leaves, 1,024 to 2,047.
#[repr(C)]
#[derive(Clone, Copy)]
pub struct Signer {
    pub key: [u8; 56],
    pub seed: [u8; 32],
    pub next: u32,
    pub nodes: [Node; 2048],
}

// A seed, an identifier, a nonce or a message of a wrong length; no leaf left.
#[derive(Clone, Copy)]
pub enum Refusal {
    Length,
    NoLeaf,
}

impl From<Refusal> for u32 {
    ghost from_gives = { λ r n. n ≡ number_of r };

    fn from(refusal: Refusal) -> u32 {
        match refusal {
            Refusal::Length => 2,
            Refusal::NoLeaf => 15,
        }
    }
}

impl From<TryFromSliceError> for Refusal {
    ghost from_gives = { λ _ r. r ≡ Length };

    fn from(_: TryFromSliceError) -> Refusal {
        Self::Length
    }
}

// What a signing answers to C: the refusal, or 0, and the signature, or zeros.
#[repr(C)]
#[derive(Clone, Copy)]
pub struct Signature {
    pub refusal: u32,
    pub bytes: [u8; 1452],
}

impl From<Result<[u8; 1452], Refusal>> for Signature {
    ghost from_gives = { λ signed answer. answer ≡ answered signed };

    fn from(signed: Result<[u8; 1452], Refusal>) -> Signature {
        match signed {
            Ok(bytes) => Signature { refusal: 0, bytes },
            Err(refusal) => Signature {
                refusal: refusal.into(),
                bytes: [0u8; 1452],
            },
        }
    }
}
