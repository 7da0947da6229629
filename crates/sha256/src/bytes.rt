// Words and lengths as bytes, the highest first.
ghost use Rattle.std.specs.Prelude.{◌≡◌, ◌*◌, ◌^◌, ◌<◌};
ghost use Rattle.wire.specs.Numbers.{bytes};
ghost use Rattle.sha256.specs.Digest.{digest_of};

use sha256_block::Variables;
use wire::{copy_into, u32_bytes};

// The length in bits of a message of n bytes, in eight bytes.
pub fn bit_length(n: usize) -> [u8; 8]
    requires { n < 2 ^ 61 }
    ensures { result ≡ bytes 8 (8 * n) }
{
    let bits = 8 * n;
    bits.to_be_bytes()
}

// The eight words of a hash value, four bytes each.
pub fn digest(v: Variables) -> [u8; 32]
    ensures { result ≡ digest_of v }
{
    let words = [v.a, v.b, v.c, v.d, v.e, v.f, v.g, v.h];
    let mut out = [0u8; 32];
    for (i, word) in words.iter().enumerate() {
        copy_into(&u32_bytes(*word), &mut out, 4 * i);
    }
    out
}
