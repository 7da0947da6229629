// The run over a journal: its commands in turn on a lent book, and a line for each. `run_of` is the form by value.
#![tactic(auto)]

mod following;
mod lines;
mod runs;

pub use following::{Cause, next};
pub use lines::Line;
pub use runs::{Ran, Whole, run, run_of};
