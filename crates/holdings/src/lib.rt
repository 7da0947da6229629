// What one channel holds: sums of cents that cannot wrap, whether its values are sound, and a reading of it. Only the product's own parts call it.
#![tactic(auto)]

mod readings;
mod soundness;
mod sums;

pub use readings::{Sound, unread};
pub use soundness::{delay_fits, sound_channel};
pub use sums::{sums_to, total_fits};
