// Whether a book is sound: any values may stand in a lent one.
ghost use Rattle.std.specs.Prelude.{◌≡◌};
ghost use Rattle.machine.specs.Book.{sound_setup, sound};

use days::ShutDays;
use fees::fee_fits;
use holdings::{delay_fits, sound_channel};
use machine::{Book, LIMIT, MARK, Setup};

// What the opening fixed is in its limits.
fn sound_setup(setup: Setup) -> bool
    ensures { result ≡ sound_setup setup }
{
    let days = setup.days;
    let shut = ShutDays {
        days,
        count: setup.count,
    };
    delay_fits(u64::from(setup.delay)) & fee_fits(setup.fee) & (setup.dated <= 1) & shut.are_sound()
}

pub fn sound(book: &Book) -> bool
    ensures { result ≡ sound book.now }
{
    (book.mark == MARK)
        & (book.clock.0 <= LIMIT)
        & sound_setup(book.setup)
        & book.channels.iter().all(|ch| sound_channel(*ch))
}
