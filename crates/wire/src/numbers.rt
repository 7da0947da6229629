// Big-endian numbers.
ghost use Rattle.std.specs.Prelude.{◌≡◌, ◌+◌, ◌/◌, ◌%◌, ◌^◌, ◌≤◌, length};
ghost use Rattle.wire.specs.Numbers.{bytes, u16_at, u32_at, u64_at};

use crate::parts::array_at;

// The number in the two bytes of s from place at on.
pub fn u16_at(s: &[u8], at: usize) -> u16
    requires { at + 2 ≤ length s.now }
    ensures { result ≡ u16_at s.now at }
{
    u16::from_be_bytes(array_at(s, at))
}

// The number in the four bytes of s from place at on.
pub fn u32_at(s: &[u8], at: usize) -> u32
    requires { at + 4 ≤ length s.now }
    ensures { result ≡ u32_at s.now at }
{
    u32::from_be_bytes(array_at(s, at))
}

// The number in the eight bytes of s from place at on.
pub fn u64_at(s: &[u8], at: usize) -> u64
    requires { at + 8 ≤ length s.now }
    ensures { result ≡ u64_at s.now at }
{
    u64::from_be_bytes(array_at(s, at))
}

// The number x in four bytes.
pub fn u32_bytes(x: u32) -> [u8; 4]
    ensures { result ≡ bytes 4 x }
{
    x.to_be_bytes()
}
