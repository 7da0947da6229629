// The calls that change a lent book in place.
ghost use Rattle.std.specs.Prelude.{◌≡◌};
ghost use Rattle.machine.specs.Opening.{under, plainly, opening};
ghost use Rattle.machine.specs.Real.{real_step};
ghost use Rattle.arbiter.specs.Openings.{opened_in};

use crate::opening::{opened_with, plain_settings};
use command::carry_out;
use machine::{Answer, Book, Refusal, Settings};

// The plain opening: makes any lent book fresh, with the id; an id that is not 16 bytes long is refused with 2 and keeps every value.
pub fn open(book: &mut Book, id: &[u8]) -> Result<(), Refusal>
    ensures { opened_in book.new result ≡ opening book.old (plainly id.now) }
{
    open_with(book, id, plain_settings(), &[])
}

// The opening with settings and dates: 2 for the id, then 14 where the default delay is out of its range, then 20 for the fee, then 21 where a date does not
// exist, then 22 where they are more than 64 or do not rise; refused, it keeps every value.
pub fn open_with(
    book: &mut Book,
    id: &[u8],
    settings: Settings,
    dates: &[u32],
) -> Result<(), Refusal>
    ensures { opened_in book.new result ≡ opening book.old (under settings dates.now id.now) }
{
    *book = opened_with(id, settings, dates)?;
    Ok(())
}

// Carries a command out on the lent book, or refuses it and keeps every value.
pub fn apply(book: &mut Book, command: &[u8]) -> Answer
    ensures { (result ≡ (real_step book.old command.now).answer)
        × (book.new ≡ (real_step book.old command.now).book) }
{
    carry_out(book, command)
}
