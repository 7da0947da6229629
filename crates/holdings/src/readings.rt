// A reading of one channel.
ghost use Rattle.std.specs.Prelude.{◌≡◌, true};
ghost use Rattle.machine.specs.Book.{cents, total, held, sound_channel, no_reading, read_channel};

use machine::{Cents, Channel, Reading, Seconds, Status};

// A channel whose values are in their ranges.
#[derive(Clone, Copy)]
pub struct Sound {
    pub channel: Channel,
    ghost sound: { sound_channel channel ≡ true },
}

impl Sound {
    // The paper's T.
    #[tactic(auto, unfolding(machine::specs::Book::total, machine::specs::Book::sound_channel))]
    pub fn total(self) -> Cents
        ensures { result ≡ cents (total self.channel) }
    {
        let ch = self.channel;
        if ch.is(Status::Unused) {
            return Cents(0);
        }
        Cents(ch.customer.deposit.0 + ch.merchant.deposit.0)
    }

    // What the channel holds, by its status.
    #[tactic(auto, unfolding(machine::specs::Book::held))]
    pub fn held(self) -> Cents
        ensures { result ≡ cents (held self.channel) }
    {
        let ch = self.channel;
        match Status::try_from(ch.status) {
            Ok(Status::AwaitingMerchant) => ch.customer.deposit,
            Ok(Status::Open | Status::MerchantClosing) => self.total(),
            Ok(Status::CustomerClosing) => ch.kept,
            _ => Cents(0),
        }
    }

    // The deadline, the kept part and the lock are a closing's.
    #[tactic(auto, unfolding(machine::specs::Book::read_channel))]
    pub fn reading(self) -> Reading
        ensures { result ≡ read_channel self.channel }
    {
        let ch = self.channel;
        let lock = ch.lock;
        let no_closing = Reading {
            total: self.total(),
            held: self.held(),
            status: ch.status,
            ..unread(0)
        };
        match Status::try_from(ch.status) {
            Ok(Status::MerchantClosing) => Reading {
                deadline: ch.deadline,
                ..no_closing
            },
            Ok(Status::CustomerClosing) => Reading {
                deadline: ch.deadline,
                kept: ch.kept,
                lock,
                ..no_closing
            },
            _ => no_closing,
        }
    }
}

// A refused reading: zeros. `Reading` is C's (finaruvom_read), so the refusal stands in it as a number.
pub fn unread(refusal: u32) -> Reading
    ensures { result ≡ no_reading refusal }
{
    Reading {
        total: Cents(0),
        held: Cents(0),
        deadline: Seconds(0),
        kept: Cents(0),
        refusal,
        status: 0,
        lock: [0u8; 32],
    }
}
