// What the arbiter's code and definitions speak of: a book of 64 payment channels, and what its calls answer.
#![tactic(auto)]

mod answers;
mod limits;
mod numbers;
mod state;
mod units;

pub use answers::{Accepted, Answer, Reading, Stepped};
pub use limits::{HIGHEST, LAYOUT, LIMIT, LONGEST, MARK, SHORTEST};
pub use numbers::{Opcode, Refusal, Status};
pub use state::{Book, Channel, Context, Leaves, Party, Settings, Setup};
pub use units::{Cents, Seconds};
