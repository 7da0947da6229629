// What the arbiter's calls answer.
ghost use Rattle.std.specs.Prelude.{◌≡◌};
ghost use Rattle.machine.specs.Outcomes.{refusal_number, refused_answer, paid_answer, unpaid};

use crate::numbers::Refusal;
use crate::state::{Book, Channel};
use crate::units::{Cents, Seconds};

// What a command answers: the refusal's number, or 0; what it paid to each side; the chain steps; the fee that the desk kept of the merchant's payment.
// C takes it from finaruvom_apply as it is here, so a refusal beside the rest and not a Result.
#[repr(C)]
#[derive(Clone, Copy)]
pub struct Answer {
    pub customer: Cents,
    pub merchant: Cents,
    pub steps: u32,
    pub refusal: u32,
    pub fee: Cents,
}

impl Answer {
    // Of a refused command: it pays nothing.
    pub fn refused(refusal: Refusal, steps: u32) -> Answer
        ensures { result ≡ refused_answer (refusal_number refusal) steps }
    {
        Answer {
            refusal: u32::from(refusal),
            ..Answer::paid(Cents(0), Cents(0), steps)
        }
    }

    // Of an accepted one, before the fee.
    pub fn paid(customer: Cents, merchant: Cents, steps: u32) -> Answer
        ensures { result ≡ paid_answer customer merchant steps }
    {
        Answer {
            customer,
            merchant,
            steps,
            refusal: 0,
            fee: Cents(0),
        }
    }
}

// What an accepted command makes of its channel, and what it pays to each side.
#[derive(Clone, Copy)]
pub struct Accepted {
    pub channel: Channel,
    pub customer: Cents,
    pub merchant: Cents,
}

impl Accepted {
    pub fn unpaid(channel: Channel) -> Accepted
        ensures { result ≡ unpaid channel }
    {
        Accepted {
            channel,
            customer: Cents(0),
            merchant: Cents(0),
        }
    }
}

// What a command makes of the book, and its answer.
#[derive(Clone, Copy)]
pub struct Stepped {
    pub book: Book,
    pub answer: Answer,
}

// What a reading of one channel gives. C takes it from finaruvom_read as it is here, so numbers for refusal and status.
#[repr(C)]
#[derive(Clone, Copy)]
pub struct Reading {
    pub total: Cents,
    pub held: Cents,
    pub deadline: Seconds,
    pub kept: Cents,
    pub refusal: u32,
    pub status: u32,
    pub lock: [u8; 32],
}
