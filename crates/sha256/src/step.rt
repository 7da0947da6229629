// A hash value that is hashed again, behind 23 bytes: with their padding they are one block.
ghost use Rattle.std.specs.Prelude.{◌≡◌, ◌++◌, ◌+◌, ◌*◌, ◌/◌, ◌%◌, ◌^◌, ◌≤◌, length};
ghost use Rattle.wire.specs.Parts.{part};
ghost use Rattle.sha256.specs.Digest.{digest_of, sha256};

use crate::state::initial;
use sha256_block::{Variables, compress_words};
use wire::u32_at;

// The hash value whose bytes are the 32 of s from place at on. Only the product's own parts call it.
pub fn value_at(s: &[u8], at: usize) -> Variables
    requires { at + 32 ≤ length s.now }
    ensures { digest_of result ≡ part s.now at 32 }
{
    Variables {
        a: u32_at(s, at),
        b: u32_at(s, at + 4),
        c: u32_at(s, at + 8),
        d: u32_at(s, at + 12),
        e: u32_at(s, at + 16),
        f: u32_at(s, at + 20),
        g: u32_at(s, at + 24),
        h: u32_at(s, at + 28),
    }
}

// The word of the last three bytes of x and the first of y.
#[tactic(auto, using(crate::proofs::Behind::joined_is))]
fn joined(x: u32, y: u32) -> u32
    ensures { result ≡ x % 2 ^ 24 * 2 ^ 8 + y / 2 ^ 24 % 2 ^ 8 }
{
    (x << 8) | (y >> 24)
}

// The hash value of the bytes of first and those of v. Only the product's own parts call it.
pub fn hash_after(first: [u8; 23], v: Variables) -> Variables
    ensures { digest_of result ≡ sha256 (first ++ digest_of v) }
{
    let seam = u32::from_be_bytes([first[20], first[21], first[22], (v.a >> 24) as u8]);
    let block = [
        u32_at(&first, 0),
        u32_at(&first, 4),
        u32_at(&first, 8),
        u32_at(&first, 12),
        u32_at(&first, 16),
        seam,
        joined(v.a, v.b),
        joined(v.b, v.c),
        joined(v.c, v.d),
        joined(v.d, v.e),
        joined(v.e, v.f),
        joined(v.f, v.g),
        joined(v.g, v.h),
        joined(v.h, 0x80000000),
        0,
        440,
    ];
    compress_words(initial(), block)
}
