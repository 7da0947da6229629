// One command on one book, lent or by value: whether the book is sound, the checks that all commands share, and the step.
#![tactic(auto)]

mod soundness;
mod steps;

pub use soundness::sound;
pub use steps::{carry_out, size_of, step};
