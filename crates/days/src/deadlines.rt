// The next open day, and a deadline moved to it.
ghost use Rattle.std.specs.Prelude.{◌≡◌, ◌+◌, ◌≤◌, ◌^◌, take, length};
ghost use Rattle.calendar.specs.Days.{skip, past, next_open, banked};

use crate::lists::ShutDays;

// The first day from a day on that is no Saturday or Sunday.
#[tactic(auto, unfolding(calendar::specs::Days::skip))]
fn skip(day: u64) -> u64
    requires { day ≤ 2 ^ 62 }
    ensures { result ≡ skip day }
{
    match (day + 4) % 7 {
        6 => day + 2,
        0 => day + 1,
        _ => day,
    }
}

// The same, and the one after it where a listed day is there.
#[tactic(auto, unfolding(calendar::specs::Days::past))]
fn past(listed: u32, day: u64) -> u64
    requires { day ≤ 2 ^ 62 }
    ensures { result ≡ past listed day }
{
    let open = skip(day);
    if open == u64::from(listed) {
        open + 1
    } else {
        open
    }
}

// The first day from a day on that is open.
fn next_open(listed: &[u32], day: u64) -> u64
    requires { (length listed.now ≤ 64) × (day ≤ 2 ^ 61) }
    ensures value { result ≡ next_open listed.now day }
    ensures upper_bound { result ≤ day + 194 }
{
    let mut open = day;
    for shut in listed {
        open = past(*shut, open);
    }
    skip(open)
}

impl ShutDays {
    // A deadline, moved to 00:00:00 of the next open day where its own is shut.
    pub fn banked(self, t: u64) -> u64
        requires { t ≤ 2 ^ 63 + 2 ^ 32 }
        ensures { result ≡ banked (take self.count self.days) t }
    {
        let day = t / 86400;
        let open = next_open(self.listed(), day);
        if open == day { t } else { 86400 * open }
    }
}
