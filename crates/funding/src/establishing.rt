// 02: a channel's two sides, their keys and agreed deposits, and its delay.
#![tactic(auto, unfolding(machine::specs::Rules::keyed, machine::specs::Rules::delayed, machine::specs::Rules::establish, machine::specs::Machine::ruling, machine::specs::Machine::concluded, machine::specs::Machine::answer, machine::specs::Checks::ask))]

ghost use Rattle.std.specs.Prelude.{◌≡◌, length};
ghost use Rattle.machine.specs.Format.{delay};
ghost use Rattle.machine.specs.Rules.{keyed, delayed, deposits_fit, establish};
ghost use Rattle.machine.specs.Machine.{customer_of, merchant_of, ruling};
ghost use Rattle.machine.specs.Outcomes.{ruled_of};

use crate::deposits::awaiting;
use checks::ensure;
use holdings::{delay_fits, total_fits};
use lms::typed_key;
use machine::{Accepted, Cents, Channel, Context, Party, Refusal, Status};
use wire::{array_at, same, u32_at, u64_at};

// Both keys carry types 6 and 4, and they differ.
fn keys_fit(customer: [u8; 56], merchant: [u8; 56]) -> bool
    ensures { result ≡ keyed customer merchant }
{
    typed_key(&customer) && typed_key(&merchant) && !same(&customer, &merchant)
}

// A delay of 0 stands for the book's default: so documents 01 and 02 write the operand, and `delayed` takes it as it is.
fn delay_or_default(default: u32, delay: u32) -> u32
    ensures { result ≡ delayed default delay }
{
    if delay == 0 { default } else { delay }
}

// The total is 1 to 2^63 - 1: one side may deposit nothing, but not both.
fn deposits_fit(customer: Cents, merchant: Cents) -> bool
    ensures { result ≡ deposits_fit customer.0 merchant.0 }
{
    total_fits(customer, merchant) && (Cents(0) < customer || Cents(0) < merchant)
}

fn establish(
    ch: Channel,
    at: Context,
    customer: Party,
    merchant: Party,
    delay: u32,
) -> Result<Accepted, Refusal>
    ensures { ruled_of ch 0 result ≡ ruling ch (establish at customer merchant delay ch) }
{
    ensure(ch.is(Status::Unused), Refusal::Status)?;
    ensure(keys_fit(customer.key, merchant.key), Refusal::Keys)?;
    ensure(delay == 0 || delay_fits(u64::from(delay)), Refusal::Delay)?;
    ensure(
        deposits_fit(customer.deposit, merchant.deposit),
        Refusal::Amounts,
    )?;
    let next = awaiting(
        customer.deposit,
        Status::AwaitingCustomer,
        Status::AwaitingMerchant,
    );
    let established = Channel {
        customer,
        merchant,
        delay: delay_or_default(at.setup.delay, delay),
        ..ch.moved_to(next)
    };
    Ok(Accepted::unpaid(established))
}

// The rule at the operands of a command.
pub fn establish_from(ch: Channel, at: Context, command: &[u8]) -> Result<Accepted, Refusal>
    requires { length command.now ≡ 135 }
    ensures { ruled_of ch 0 result ≡ ruling ch (establish at (customer_of command.now) (merchant_of command.now) (delay command.now) ch) }
{
    let customer = Party {
        key: array_at(command, 3),
        deposit: Cents(u64_at(command, 115)),
    };
    let merchant = Party {
        key: array_at(command, 59),
        deposit: Cents(u64_at(command, 123)),
    };
    establish(ch, at, customer, merchant, u32_at(command, 131))
}
