// What programs do with their streams: an input read whole, its fields, and the status that they end with.
#![tactic(auto)]

mod fields;
mod input;
mod running;
mod status;

pub use fields::field;
pub use input::{Failed, read_full, read_input};
pub use running::run_whole;
pub use status::status_after;
