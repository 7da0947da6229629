// SHA-256 on one block of 64 bytes (FIPS 180-4).
#![tactic(auto)]

mod constants;
mod functions;
mod rounds;
mod schedule;

pub use rounds::{Variables, compress, compress_words};
