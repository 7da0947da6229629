// Payments, and bank lines of them in packed decimal: written to a lent buffer, and read from there to a lent list.
#![tactic(auto)]

mod entries;
mod lists;
mod packed;
mod reading;
mod writing;

pub use lists::{Counted, NoParty, Party, Payment, Refusal, accepted, refused};
pub use reading::read;
pub use writing::write;
