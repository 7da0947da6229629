// The channel arbiter: a book of 64 payment channels. A book is lent to `open`, `open_with`, `apply`, `read` and `due`; `opened`, `opened_with`, `step`, `read_of` and `due_of` are the same by value.
#![tactic(auto)]

mod lent;
mod next;
mod opening;
mod readings;

pub use command::{size_of, sound, step};
pub use lent::{apply, open, open_with};
pub use machine::{
    Answer, Book, Cents, Channel, Leaves, Party, Reading, Refusal, Seconds, Settings, Setup,
    Stepped,
};
pub use next::{due, due_of};
pub use opening::{blank, desk_settings, opened, opened_with, plain_settings};
pub use readings::{read, read_of};
