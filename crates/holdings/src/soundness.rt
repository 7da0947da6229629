// What a sound book asks of a channel, and of any delay.
ghost use Rattle.std.specs.Prelude.{◌≡◌};
ghost use Rattle.machine.specs.Book.{ranged, sound_channel};

use crate::sums::{part_fits, total_fits};
use machine::{Channel, LONGEST, SHORTEST, Status};

// A delay lies between the shortest and the longest.
pub fn delay_fits(delay: u64) -> bool
    ensures { result ≡ ranged delay }
{
    (SHORTEST <= delay) && (delay <= LONGEST)
}

#[tactic(auto, unfolding(machine::specs::Book::sound_channel))]
pub fn sound_channel(ch: Channel) -> bool
    ensures { result ≡ sound_channel ch }
{
    let (customer, merchant) = (ch.customer.deposit, ch.merchant.deposit);
    let fits = total_fits(customer, merchant) && delay_fits(u64::from(ch.delay));
    match Status::try_from(ch.status) {
        Ok(Status::Unused) => true,
        Ok(Status::CustomerClosing) => fits && part_fits(ch.kept, customer, merchant),
        Ok(_) => fits,
        Err(_) => false,
    }
}
