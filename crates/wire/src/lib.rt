// Big-endian numbers, parts of a byte string, and whether two are equal. Only the product's own parts call it.
#![tactic(auto)]

mod numbers;
mod parts;

pub use numbers::{u16_at, u32_at, u32_bytes, u64_at};
pub use parts::{array_at, copy_into, same};
