// The desk's fee: its limit, and a payment to the merchant divided. Only the product's own parts call it.
#![tactic(auto)]

ghost use Rattle.std.specs.Prelude.{◌≡◌, ◌≤◌, leb};
ghost use Rattle.machine.specs.Book.{highest};
ghost use Rattle.machine.specs.Fee.{fee_of, charged};

use machine::{Answer, Cents, HIGHEST};

// A fee is at most the highest.
pub fn fee_fits(fee: u32) -> bool
    ensures { result ≡ leb fee highest }
{
    fee <= HIGHEST
}

// The whole part of amount × rate / 10,000, of the amount's ten thousands and of its rest, so that no product passes 64 bits.
#[tactic(auto, using(machine::proofs::Fees::fee_parts))]
fn fee_of(amount: u64, rate: u64) -> u64
    requires { rate ≤ highest }
    ensures value { result ≡ fee_of rate amount }
    ensures upper_bound { result ≤ amount }
{
    amount / 10000 * rate + amount % 10000 * rate / 10000
}

// The answer with the merchant's payment divided: the fee, and the rest to him.
#[tactic(auto, unfolding(machine::specs::Fee::charged))]
pub fn charged(answer: Answer, rate: u32) -> Answer
    requires { rate ≤ highest }
    ensures { result ≡ charged rate answer }
{
    let amount = answer.merchant.0;
    let fee = fee_of(amount, u64::from(rate));
    Answer {
        merchant: Cents(amount - fee),
        fee: Cents(fee),
        ..answer
    }
}
