// A run's payments for the bank: collected into a list, written to a buffer in packed decimal, and read from there.
#![tactic(auto)]

mod collecting;
mod paid;

pub use collecting::collect;
pub use payments::{Counted, Payment, Refusal, read, write};
