// Dates as day numbers, moved deadlines, and lists of dates. Only the product's own parts call it.
#![tactic(auto)]

mod dates;
mod deadlines;
mod lists;

pub use lists::{ShutDays, all_exist};
