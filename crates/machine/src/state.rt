// A book and its channels. C lends it as it is here, and any values may stand in it: so numbers for status and flag, and a count beside the days.
ghost use Rattle.std.specs.Prelude.{◌≡◌, eqb};
ghost use Rattle.machine.specs.Rules.{become};
ghost use Rattle.machine.specs.Outcomes.{status_number};

use crate::numbers::Status;
use crate::units::{Cents, Seconds};

// One side of a channel: its key, and the deposit that it agreed to.
#[repr(C)]
#[derive(Clone, Copy)]
pub struct Party {
    pub key: [u8; 56],
    pub deposit: Cents,
}

// The merchant's leaves that a channel remembers, one for each closing: both are the same where there is one.
#[repr(C)]
#[derive(Clone, Copy)]
pub struct Leaves {
    pub first: u32,
    pub second: u32,
}

// The customer is document 01's café, the merchant its bakery. A customer's closing keeps its part and the lock here.
#[repr(C)]
#[derive(Clone, Copy)]
pub struct Channel {
    pub customer: Party,
    pub merchant: Party,
    pub deadline: Seconds,
    pub kept: Cents,
    pub delay: u32,
    pub status: u32,
    pub lock: [u8; 32],
    pub leaves: Leaves,
}

impl Channel {
    pub fn is(self, status: Status) -> bool
        ensures { result ≡ eqb self.status (status_number status) }
    {
        self.status == u32::from(status)
    }

    // The same channel, elsewhere.
    pub fn moved_to(self, status: Status) -> Channel
        ensures { result ≡ become (status_number status) self }
    {
        Channel {
            status: u32::from(status),
            ..self
        }
    }
}

// What an opening is given: the delay that a 0 in a 02 stands for, the fee in ten-thousandths, and whether there is a list of shut dates.
#[repr(C)]
#[derive(Clone, Copy)]
pub struct Settings {
    pub delay: u32,
    pub fee: u32,
    pub dated: bool,
}

// What a book keeps of its opening. Where dated is not 0 the first count of days are shut, and so are Saturdays and Sundays. An even count of words, so that
// no hole comes before the clock.
#[repr(C)]
#[derive(Clone, Copy)]
pub struct Setup {
    pub delay: u32,
    pub fee: u32,
    pub days: [u32; 64],
    pub count: u32,
    pub dated: u32,
}

// The mark says that an opening wrote the book.
#[repr(C)]
#[derive(Clone, Copy)]
pub struct Book {
    pub mark: u64,
    pub id: [u8; 16],
    pub setup: Setup,
    pub clock: Seconds,
    pub channels: [Channel; 64],
}

// What a rule reads of the book beside its channel.
#[derive(Clone, Copy)]
pub struct Context {
    pub id: [u8; 16],
    pub clock: Seconds,
    pub setup: Setup,
}
