// Dates as numbers, year × 10,000 + month × 100 + day, and the numbers of their days.
ghost use Rattle.std.specs.Prelude.{◌≡◌, ◌-◌, ◌+◌, ◌≤◌, true, false, MatchResult};
ghost use Rattle.calendar.specs.Calendar.{leap, month_days, before, since, numbered, date, date_of, exists, day_of, is_date, day_number};

// The days from 1970-01-01 to 2399-12-31.
pub const NUMBERED: u32 = 157054;

// The days of the months before each, in a year that is no leap year: as a sum over the months the bound of `days_before` would stay to be proved.
const BEFORE: [u32; 13] = [0, 0, 31, 59, 90, 120, 151, 181, 212, 243, 273, 304, 334];

// A date that exists, with a year from 1970 to 2399.
#[derive(Clone, Copy)]
struct Date {
    year: u32,
    month: u32,
    day: u32,
    ghost there: { exists (date year month day) ≡ true },
}

// A number that is no date's.
#[derive(Clone, Copy)]
struct NoDate;

#[tactic(auto, unfolding(calendar::specs::Calendar::leap))]
fn is_leap(year: u32) -> bool
    ensures { result ≡ leap year }
{
    year % 4 == 0 && (year % 100 != 0 || year % 400 == 0)
}

// The days of a month; 0 for a number that is none.
#[tactic(auto, unfolding(calendar::specs::Calendar::month_days))]
fn month_days(year: u32, month: u32) -> u32
    ensures { result ≡ month_days (leap year) month }
{
    match month {
        2 if is_leap(year) => 29,
        2 => 28,
        4 | 6 | 9 | 11 => 30,
        1..=12 => 31,
        _ => 0,
    }
}

impl TryFrom<u32> for Date {
    type Error = NoDate;

    ghost try_from_gives = { λ x r. MatchResult r (λ d. date d.year d.month d.day ≡ date_of x) (λ _. is_date x ≡ false) };

    fn try_from(x: u32) -> Result<Self, NoDate> {
        let year = x / 10000;
        let month = x / 100 % 100;
        let day = x % 100;
        let there = (1970..=2399).contains(&year)
            && (1..=12).contains(&month)
            && (1..=month_days(year, month)).contains(&day);
        if there {
            Ok(Date { year, month, day })
        } else {
            Err(NoDate)
        }
    }
}

impl Date {
    // The number of its day.
    fn number(self) -> u32
        ensures { result ≡ day_of (date self.year self.month self.day) }
    {
        days_since(self.year) + days_before(self.year, self.month) + (self.day - 1)
    }
}

// The days of the months before a month.
fn days_before(year: u32, month: u32) -> u32
    requires { month ≤ 12 }
    ensures value { result ≡ before (leap year) month }
    ensures upper_bound { result ≤ 335 }
{
    let days = BEFORE[month as usize];
    if (month > 2) & is_leap(year) {
        days + 1
    } else {
        days
    }
}

// The days of the years from 1970 to the one before.
fn days_since(year: u32) -> u32
    requires { (1970 ≤ year) × (year ≤ 2399) }
    ensures value { result ≡ since (year - 1970) }
    ensures upper_bound { result ≤ numbered }
{
    let last = year - 1;
    365 * (year - 1970) + (last / 4 + last / 400 - last / 100 - 477)
}

// Whether a number is a date's.
pub fn is_date(x: u32) -> bool
    ensures { result ≡ is_date x }
{
    Date::try_from(x).is_ok()
}

// The number of a date's day; 0 where there is no such date.
pub fn day_number(x: u32) -> u32
    ensures { result ≡ day_number x }
{
    match Date::try_from(x) {
        Ok(date) => date.number(),
        Err(_) => 0,
    }
}
