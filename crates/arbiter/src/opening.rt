// A book to lend, and the openings that make it fresh: the plain one, and one that is given settings and dates.
ghost use Rattle.std.specs.Prelude.{◌≡◌};
ghost use Rattle.machine.specs.declared.state.Book.{Book};
ghost use Rattle.calendar.specs.Lists.{given};
ghost use Rattle.arbiter.specs.Openings.{opened_by};
ghost use Rattle.machine.specs.Opening.{under, plainly, plain_settings, desk_settings, kept_by, unused, fresh_book, opening, blank_book};

use checks::ensure;
use days::{ShutDays, all_exist};
use fees::fee_fits;
use holdings::delay_fits;
use machine::{Book, Cents, Channel, Leaves, MARK, Party, Refusal, Seconds, Settings, Setup};
use wire::array_at;

// Status 0, and zeros.
fn unused_channel() -> Channel
    ensures { result ≡ unused }
{
    let customer = Party {
        key: [0u8; 56],
        deposit: Cents(0),
    };
    let merchant = Party {
        key: [0u8; 56],
        deposit: Cents(0),
    };
    Channel {
        customer,
        merchant,
        deadline: Seconds(0),
        kept: Cents(0),
        delay: 0,
        status: 0,
        lock: [0u8; 32],
        leaves: Leaves {
            first: 0,
            second: 0,
        },
    }
}

// A book to lend to an opening: it has no mark, so every other call refuses it.
pub fn blank() -> Book
    ensures { result ≡ blank_book }
{
    let channel = unused_channel();
    let channels = [channel; 64];
    Book {
        mark: 0,
        id: [0u8; 16],
        setup: Setup {
            delay: 0,
            fee: 0,
            days: [0u32; 64],
            count: 0,
            dated: 0,
        },
        clock: Seconds(0),
        channels,
    }
}

// What the plain opening is given: a delay of 0 stands for a day, and there is no fee and no list of dates.
pub fn plain_settings() -> Settings
    ensures { result ≡ plain_settings }
{
    Settings {
        delay: 86400,
        fee: 0,
        dated: false,
    }
}

// What the desk gives new books: a delay of 0 stands for two days, and there is no fee and no list of dates.
pub fn desk_settings() -> Settings
    ensures { result ≡ desk_settings }
{
    Settings {
        delay: 172800,
        fee: 0,
        dated: false,
    }
}

fn fresh_book(id: [u8; 16], settings: Settings, shut: ShutDays) -> Book
    ensures { result ≡ fresh_book id (kept_by settings shut.days shut.count) }
{
    let channel = unused_channel();
    let channels = [channel; 64];
    let days = shut.days;
    let setup = Setup {
        delay: settings.delay,
        fee: settings.fee,
        days,
        count: shut.count,
        dated: u32::from(settings.dated),
    };
    Book {
        mark: MARK,
        id,
        setup,
        clock: Seconds(0),
        channels,
    }
}

// The dates that an opening is given: none where it is given no list.
fn given(dated: bool, dates: &[u32]) -> &[u32]
    ensures { result.now ≡ given dated dates.now }
{
    if dated { dates } else { &[] }
}

// A fresh book with the id, the settings and the dates, or the first check that says no.
#[tactic(auto, using(crate::proofs::Openings::part_all), unfolding(machine::specs::Opening::opening, machine::specs::Opening::fresh, machine::specs::Checks::ask))]
pub fn opened_with(id: &[u8], settings: Settings, dates: &[u32]) -> Result<Book, Refusal>
    ensures { (lent : Book) → opened_by lent result ≡ opening lent (under settings dates.now id.now) }
{
    let dates = given(settings.dated, dates);
    ensure(id.len() == 16, Refusal::Length)?;
    ensure(delay_fits(u64::from(settings.delay)), Refusal::DefaultDelay)?;
    ensure(fee_fits(settings.fee), Refusal::Fee)?;
    ensure(all_exist(dates), Refusal::Date)?;
    let shut = ShutDays::of(dates).ok_or(Refusal::Dates)?;
    Ok(fresh_book(array_at(id, 0), settings, shut))
}

// The plain opening, which the id alone can fail.
pub fn opened(id: &[u8]) -> Result<Book, Refusal>
    ensures { (lent : Book) → opened_by lent result ≡ opening lent (plainly id.now) }
{
    opened_with(id, plain_settings(), &[])
}
