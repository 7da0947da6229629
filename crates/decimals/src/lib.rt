// Rows of decimal numbers, as text. Only the text of a statement calls it.
#![tactic(auto)]

mod numbers;

pub use numbers::{push_row, put_row};
