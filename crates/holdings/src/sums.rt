// Sums of cents that cannot wrap.
ghost use Rattle.std.specs.Prelude.{◌≡◌, eqb, leb, ◌+◌};
ghost use Rattle.machine.specs.Book.{limit};

use machine::{Cents, LIMIT};

// The total of two deposits is at most 2^63 - 1.
pub fn total_fits(customer: Cents, merchant: Cents) -> bool
    ensures { result ≡ leb (customer.0 + merchant.0) limit }
{
    let total = customer.0.checked_add(merchant.0);
    total.is_some_and(|sum| sum <= LIMIT)
}

// The two parts come to the whole, as whole numbers.
pub fn sums_to(customer: Cents, merchant: Cents, whole: Cents) -> bool
    ensures { result ≡ eqb (customer.0 + merchant.0) whole.0 }
{
    customer.0.checked_add(merchant.0) == Some(whole.0)
}

// A part is at most the sum of two.
pub fn part_fits(part: Cents, customer: Cents, merchant: Cents) -> bool
    ensures { result ≡ leb part.0 (customer.0 + merchant.0) }
{
    part.0.saturating_sub(customer.0) <= merchant.0
}
