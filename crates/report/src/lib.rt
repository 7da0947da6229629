// The text of a statement, part by part. Only the statement program calls it.
#![tactic(auto)]

mod lines;
mod parts;

pub use lines::Text;
pub use parts::{Part, Reached, Refused, begin, next_part};
