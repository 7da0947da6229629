// 03 and 04: the two sides pay in. 05: the customer takes back what the merchant has not matched.
#![tactic(auto, unfolding(machine::specs::Rules::fund_customer, machine::specs::Rules::fund_merchant, machine::specs::Rules::reclaim, machine::specs::Machine::ruling, machine::specs::Machine::concluded, machine::specs::Machine::answer, machine::specs::Checks::ask))]

ghost use Rattle.std.specs.Prelude.{◌≡◌, cond, eqb, length};
ghost use Rattle.machine.specs.Rules.{fund_customer, fund_merchant, reclaim};
ghost use Rattle.machine.specs.Machine.{ruling, verdict};
ghost use Rattle.machine.specs.Outcomes.{status_number, ruled_of};
ghost use Rattle.machine.specs.Real.{lms_verdict};

use checks::{Signed, ensure};
use machine::{Accepted, Cents, Channel, Context, Refusal, Status};

// The status that awaits a deposit, or the one past it where the deposit is 0.
pub fn awaiting(deposit: Cents, status: Status, past: Status) -> Status
    ensures { status_number result ≡ cond (eqb deposit.0 0) (status_number past) (status_number status) }
{
    if deposit == Cents(0) { past } else { status }
}

pub fn fund_customer(ch: Channel, paid: Cents) -> Result<Accepted, Refusal>
    ensures { ruled_of ch 0 result ≡ ruling ch (fund_customer paid.0 ch) }
{
    ensure(ch.is(Status::AwaitingCustomer), Refusal::Status)?;
    ensure(paid == ch.customer.deposit, Refusal::Amounts)?;
    let next = awaiting(ch.merchant.deposit, Status::AwaitingMerchant, Status::Open);
    Ok(Accepted::unpaid(ch.moved_to(next)))
}

pub fn fund_merchant(ch: Channel, paid: Cents) -> Result<Accepted, Refusal>
    ensures { ruled_of ch 0 result ≡ ruling ch (fund_merchant paid.0 ch) }
{
    ensure(ch.is(Status::AwaitingMerchant), Refusal::Status)?;
    ensure(paid == ch.merchant.deposit, Refusal::Amounts)?;
    Ok(Accepted::unpaid(ch.moved_to(Status::Open)))
}

pub fn reclaim(
    ch: Channel,
    at: Context,
    command: &[u8],
    steps: &mut u32,
) -> Result<Accepted, Refusal>
    requires { length command.now ≡ 1455 }
    ensures { ruled_of ch steps.new result ≡ ruling ch (reclaim (verdict lms_verdict ch.customer.key at.id command.now 3 3) ch) }
{
    let id = at.id;
    let signed = Signed {
        id,
        command,
        end: 3,
    };
    *steps = 0;
    ensure(ch.is(Status::AwaitingMerchant), Refusal::Status)?;
    signed.checked(ch.customer.key, 3, Refusal::CustomerSignature, steps)?;
    Ok(Accepted {
        channel: ch.moved_to(Status::Closed),
        customer: ch.customer.deposit,
        merchant: Cents(0),
    })
}
