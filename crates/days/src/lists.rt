// Lists of dates: what an opening asks of them, and what a book keeps.
ghost use Rattle.std.specs.Prelude.{◌≡◌, true, false, [], take, length, MatchOption};
ghost use Rattle.calendar.specs.Lists.{all_dates, in_order, kept_days, sound_days};

use crate::dates::{NUMBERED, day_number, is_date};

// The shut days of a book: the first count of these.
#[derive(Clone, Copy)]
pub struct ShutDays {
    pub days: [u32; 64],
    pub count: u32,
}

impl ShutDays {
    // What a book without a list keeps.
    pub fn none() -> ShutDays
        ensures { result ≡ record { days = kept_days []; count = 0 } }
    {
        ShutDays {
            days: [0; 64],
            count: 0,
        }
    }

    // What a book keeps of a list of dates, if they are few enough and rise.
    pub fn of(dates: &[u32]) -> Option<ShutDays>
        ensures { MatchOption result (in_order dates.now ≡ false) (λ shut. (in_order dates.now ≡ true) × (shut.days ≡ kept_days dates.now) × (shut.count ≡ length dates.now)) }
    {
        if dates.len() > 64 {
            return None;
        }
        let mut days = [0; 64];
        // By index: of `days.iter_mut().zip(dates)` the check knows no element after the loop.
        for (i, date) in dates.iter().enumerate() {
            days[i] = day_number(*date);
        }
        let shut = ShutDays {
            days,
            count: dates.len() as u32,
        };
        shut.are_sound().then_some(shut)
    }

    // Those that are listed.
    pub(crate) fn listed(&self) -> &[u32]
        ensures { result.now ≡ take self.now.count self.now.days }
    {
        self.days.get(..self.count as usize).unwrap_or(&self.days)
    }

    // Whether they are at most 64 day numbers that rise.
    pub fn are_sound(self) -> bool
        ensures { result ≡ sound_days self.count self.days }
    {
        let listed = self.listed();
        (self.count <= 64)
            & listed.is_sorted_by(|day, next| day < next)
            & listed.iter().all(|day| *day < NUMBERED)
    }
}

// Whether all dates exist.
pub fn all_exist(dates: &[u32]) -> bool
    ensures { result ≡ all_dates dates.now }
{
    dates.iter().all(|date| is_date(*date))
}
