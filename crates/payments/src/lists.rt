// Payments, lists of them, and why they are refused.
ghost use Rattle.std.specs.Prelude.{◌≡◌, false, MatchResult};
ghost use Rattle.payments.specs.Payments.{is_party, number_of_party, listed, payment_of};
ghost use Rattle.payments.specs.Answers.{number_of, accepted, refused, counted_of};

use machine::Cents;

// A party of a channel, by the number that stands for it in a list and in an entry.
#[derive(Clone, Copy, PartialEq, Eq)]
pub enum Party {
    Customer = 1,
    Merchant = 2,
}

// A number that stands for no party.
#[derive(Clone, Copy, PartialEq, Eq)]
pub struct NoParty;

// A payment as it stands in a list: the party, the channel n, and the amount.
// Any three numbers may stand there, so the party is a number: `listed` in specs/ takes each.
#[derive(Clone, Copy)]
pub struct Payment {
    pub party: u64,
    pub channel: u64,
    pub amount: Cents,
}

// Why payments are not written, read or collected: one that no entry can hold, no room for them, bytes that are no entry.
#[derive(Clone, Copy, PartialEq, Eq)]
pub enum Refusal {
    Unwritable = 17,
    NoRoom = 18,
    BadEntry = 19,
}

// What collecting, writing and reading answer to C: the refusal, or 0, and the number of payments, 0 where it was refused.
#[repr(C)]
#[derive(Clone, Copy)]
pub struct Counted {
    pub refusal: u64,
    pub payments: usize,
}

pub fn accepted(payments: usize) -> Counted
    ensures { result ≡ accepted payments }
{
    Counted {
        refusal: 0,
        payments,
    }
}

// By any number.
pub fn refused(refusal: u64) -> Counted
    ensures { result ≡ refused refusal }
{
    Counted {
        refusal,
        payments: 0,
    }
}

impl From<Party> for u64 {
    ghost from_gives = { λ p n. n ≡ number_of_party p };

    fn from(p: Party) -> u64 {
        p as u64
    }
}

impl TryFrom<u64> for Party {
    type Error = NoParty;

    ghost try_from_gives = { λ n r. MatchResult r (λ p. number_of_party p ≡ n) (λ _. is_party n ≡ false) };

    fn try_from(n: u64) -> Result<Party, NoParty> {
        match n {
            1 => Ok(Party::Customer),
            2 => Ok(Party::Merchant),
            _ => Err(NoParty),
        }
    }
}

// A payment as a list holds it: party, channel, amount.
impl From<Payment> for [u64; 3] {
    ghost from_gives = { λ p e. e ≡ listed p };

    #[tactic(auto, unfolding(crate::specs::Payments::listed))]
    fn from(p: Payment) -> [u64; 3] {
        [p.party, p.channel, p.amount.0]
    }
}

impl From<[u64; 3]> for Payment {
    ghost from_gives = { λ e p. p ≡ payment_of e };

    #[tactic(auto, unfolding(crate::specs::Payments::payment_of))]
    fn from(e: [u64; 3]) -> Payment {
        Payment {
            party: e[0],
            channel: e[1],
            amount: Cents(e[2]),
        }
    }
}

impl From<Refusal> for u64 {
    ghost from_gives = { λ r n. n ≡ number_of r };

    fn from(r: Refusal) -> u64 {
        r as u64
    }
}

impl From<Result<usize, Refusal>> for Counted {
    ghost from_gives = { λ r c. c ≡ counted_of r };

    fn from(answer: Result<usize, Refusal>) -> Counted {
        match answer {
            Ok(payments) => accepted(payments),
            Err(r) => refused(u64::from(r)),
        }
    }
}
