// The state of a hash under way, by value: new, fed any number of parts, finished. Only the product's own parts call it.
ghost use Rattle.std.specs.Prelude.{◌≡◌, List, [], ◌∷◌, ℕ, ◌+◌, ◌<◌, ◌≤◌, ◌^◌, length, replicate};
ghost use Rattle.std.proofs.Math.Seq.{paste};
ghost use Rattle.sha256.specs.Digest.{H⁰, sha256};
ghost use Rattle.sha256.specs.State.{Taken, Fed};

use crate::bytes::{bit_length, digest};
use sha256_block::{Variables, compress};

#[derive(Clone, Copy)]
pub struct Sha256 {
    pub h: Variables,
    pub buf: [u8; 64],
    pub n: usize,
}

// The initial hash value.
pub fn initial() -> Variables
    ensures { result ≡ H⁰ }
{
    Variables {
        a: 0x6a09e667,
        b: 0xbb67ae85,
        c: 0x3c6ef372,
        d: 0xa54ff53a,
        e: 0x510e527f,
        f: 0x9b05688c,
        g: 0x1f83d9ab,
        h: 0x5be0cd19,
    }
}

// A bit 1 and zeros: the padding begins with a part of it.
fn mark() -> [u8; 64]
    ensures { result ≡ 0x80 ∷ replicate 63 0 }
{
    let mut m = [0u8; 64];
    m[0] = 0x80;
    m
}

// Part written into the block from byte at on. With copy_into each part was a call of memcpy, and a key making copied more than tests/footprint.c allows: the
// compiler does not see that `% 64` changes nothing, and keeps the loop.
fn write_into(part: &[u8], block: &mut [u8; 64], at: usize)
    requires { at + length part.now ≤ 64 }
    ensures { block.new ≡ paste block.old at part.now (length part.now) }
{
    for (j, byte) in part.iter().enumerate() {
        block[(at + j) % 64] = *byte;
    }
}

impl Sha256 {
    // Nothing taken in.
    #[tactic(auto, unfolding(crate::specs::Digest::hashed))]
    pub fn new() -> Self
        ensures { Taken result [] }
    {
        Sha256 {
            h: initial(),
            buf: [0; 64],
            n: 0,
        }
    }

    // Where self has taken in m, the result has taken in m and then part.
    pub fn feed(mut self, part: &[u8]) -> Self
        requires { self.n + length part.now < 2 ^ 64 }
        ensures { Fed self part.now result }
    {
        let used = self.n % 64;
        let room = 64 - used;
        self.n += part.len();
        if part.len() < room {
            write_into(part, &mut self.buf, used);
            return self;
        }
        let (front, rest) = part.split_at(room);
        write_into(front, &mut self.buf, used);
        self.h = compress(self.h, &self.buf, 0);
        let (blocks, tail) = rest.as_chunks::<64>();
        for block in blocks {
            self.h = compress(self.h, block, 0);
        }
        write_into(tail, &mut self.buf, 0);
        self
    }

    // The digest of what was taken in: the bit 1 and zeros are fed, and then the length.
    pub fn finish(self) -> [u8; 32]
        requires { self.n < 2 ^ 61 }
        ensures { (m : List ℕ) → Taken self m → result ≡ sha256 m }
    {
        let zeros = (119 - self.n % 64) % 64;
        let bits = bit_length(self.n);
        let whole = self.feed(&mark()[..1 + zeros]).feed(&bits);
        digest(whole.h)
    }
}
