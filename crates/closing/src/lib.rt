// 06 to 0A on one channel: how it is closed, and what each way pays. Only the product's own parts call it.
#![tactic(auto, unfolding(machine::specs::Rules::mutual_close, machine::specs::Rules::customer_close, machine::specs::Rules::merchant_close, machine::specs::Rules::dispute, machine::specs::Rules::settle, machine::specs::Machine::ruling, machine::specs::Machine::concluded, machine::specs::Machine::answer, machine::specs::Checks::ask))]

ghost use Rattle.std.specs.Prelude.{◌≡◌, ◌≤◌, length};
ghost use Rattle.sha256.specs.Digest.{sha256};
ghost use Rattle.machine.specs.Format.{lock, secret, customer_part, merchant_part};
ghost use Rattle.machine.specs.Book.{seconds, limit, remembered};
ghost use Rattle.machine.specs.Rules.{mutual_close, closing_leaves, closes_at, customer_close, merchant_close, dispute, settle};
ghost use Rattle.machine.specs.Machine.{ruling, verdict};
ghost use Rattle.machine.specs.Outcomes.{ruled_of};
ghost use Rattle.machine.specs.Real.{lms_verdict};

use checks::{Signed, ensure, secret_checked};
use days::ShutDays;
use holdings::{Sound, sums_to};
use machine::{Accepted, Cents, Channel, Context, Leaves, Refusal, Seconds, Status};
use wire::{array_at, u64_at};

// `at` and `command` stay two parameters: in a struct with a reference every clause below would read `asked.entry.command.now`.

// 06
pub fn mutual_close(
    sound: Sound,
    at: Context,
    command: &[u8],
    steps: &mut u32,
) -> Result<Accepted, Refusal>
    requires { length command.now ≡ 2923 }
    ensures { ruled_of sound.channel steps.new result ≡ ruling sound.channel (mutual_close (customer_part 6 command.now) (merchant_part 6 command.now) (verdict lms_verdict sound.channel.merchant.key at.id command.now 19 19) (verdict lms_verdict sound.channel.customer.key at.id command.now 19 1471) sound.channel) }
{
    let ch = sound.channel;
    let id = at.id;
    let signed = Signed {
        id,
        command,
        end: 19,
    };
    let customer = Cents(u64_at(command, 3));
    let merchant = Cents(u64_at(command, 11));
    *steps = 0;
    ensure(ch.is(Status::Open), Refusal::Status)?;
    ensure(sums_to(customer, merchant, sound.total()), Refusal::Amounts)?;
    signed.checked(ch.merchant.key, 19, Refusal::MerchantSignature, steps)?;
    signed.checked(ch.customer.key, 1471, Refusal::CustomerSignature, steps)?;
    Ok(Accepted {
        channel: ch.moved_to(Status::Closed),
        customer,
        merchant,
    })
}

// The clock and the channel's delay, moved to a day that is not shut. The clock's bound is no field of `Context`: 06, 09 and 0A take any clock.
#[tactic(auto, using(machine::proofs::Laws::unlisted, machine::proofs::Laws::listed))]
fn deadline_of(ch: Channel, at: Context) -> Seconds
    requires { at.clock.0 ≤ limit }
    ensures { result ≡ seconds (closes_at at ch) }
{
    let t = at.clock.0 + u64::from(ch.delay);
    if at.setup.dated == 0 {
        return Seconds(t);
    }
    let days = at.setup.days;
    let shut = ShutDays {
        days,
        count: at.setup.count,
    };
    Seconds(shut.banked(t))
}

// What a channel remembers after a 07 with this leaf: the leaf of the 08 that it answers, if it answers one, and its own.
fn closing_leaves(ch: Channel, leaf: u32) -> Leaves
    ensures { result ≡ closing_leaves leaf ch }
{
    let first = if ch.is(Status::Open) {
        leaf
    } else {
        ch.leaves.first
    };
    Leaves {
        first,
        second: leaf,
    }
}

fn is_remembered(ch: Channel, leaf: u32) -> bool
    ensures { result ≡ remembered leaf ch }
{
    (leaf == ch.leaves.first) | (leaf == ch.leaves.second)
}

// 07
pub fn customer_close(
    sound: Sound,
    at: Context,
    command: &[u8],
    steps: &mut u32,
) -> Result<Accepted, Refusal>
    requires { (at.clock.0 ≤ limit) × (length command.now ≡ 2955) }
    ensures { ruled_of sound.channel steps.new result ≡ ruling sound.channel (customer_close at (lock command.now) (customer_part 7 command.now) (merchant_part 7 command.now) (verdict lms_verdict sound.channel.merchant.key at.id command.now 51 51) (verdict lms_verdict sound.channel.customer.key at.id command.now 51 1503) sound.channel) }
{
    let ch = sound.channel;
    let id = at.id;
    let signed = Signed {
        id,
        command,
        end: 51,
    };
    let lock = array_at(command, 3);
    let customer = Cents(u64_at(command, 35));
    let merchant = Cents(u64_at(command, 43));
    let open = ch.is(Status::Open);
    *steps = 0;
    ensure(open | ch.is(Status::MerchantClosing), Refusal::Status)?;
    ensure(sums_to(customer, merchant, sound.total()), Refusal::Amounts)?;
    ensure(open | (at.clock < ch.deadline), Refusal::Deadline)?;
    let leaf = signed.checked(ch.merchant.key, 51, Refusal::MerchantSignature, steps)?;
    signed.checked(ch.customer.key, 1503, Refusal::CustomerSignature, steps)?;
    let mut after = ch.moved_to(Status::CustomerClosing);
    after.deadline = deadline_of(ch, at);
    after.kept = customer;
    after.lock = lock;
    after.leaves = closing_leaves(ch, leaf);
    Ok(Accepted {
        channel: after,
        customer: Cents(0),
        merchant,
    })
}

// 08
pub fn merchant_close(
    ch: Channel,
    at: Context,
    command: &[u8],
    steps: &mut u32,
) -> Result<Accepted, Refusal>
    requires { (at.clock.0 ≤ limit) × (length command.now ≡ 1455) }
    ensures { ruled_of ch steps.new result ≡ ruling ch (merchant_close at (verdict lms_verdict ch.merchant.key at.id command.now 3 3) ch) }
{
    let id = at.id;
    let signed = Signed {
        id,
        command,
        end: 3,
    };
    *steps = 0;
    ensure(ch.is(Status::Open), Refusal::Status)?;
    let leaf = signed.checked(ch.merchant.key, 3, Refusal::MerchantSignature, steps)?;
    let mut after = ch.moved_to(Status::MerchantClosing);
    after.deadline = deadline_of(ch, at);
    after.leaves = Leaves {
        first: leaf,
        second: leaf,
    };
    Ok(Accepted::unpaid(after))
}

// 09
pub fn dispute(
    ch: Channel,
    at: Context,
    command: &[u8],
    steps: &mut u32,
) -> Result<Accepted, Refusal>
    requires { length command.now ≡ 1487 }
    ensures { ruled_of ch steps.new result ≡ ruling ch (dispute at (sha256 (secret command.now)) (verdict lms_verdict ch.merchant.key at.id command.now 35 35) ch) }
{
    let lock = ch.lock;
    let id = at.id;
    let signed = Signed {
        id,
        command,
        end: 35,
    };
    *steps = 0;
    ensure(ch.is(Status::CustomerClosing), Refusal::Status)?;
    ensure(at.clock < ch.deadline, Refusal::Deadline)?;
    secret_checked(lock, command)?;
    let leaf = signed.checked(ch.merchant.key, 35, Refusal::MerchantSignature, steps)?;
    ensure(!is_remembered(ch, leaf), Refusal::Leaf)?;
    Ok(Accepted {
        channel: ch.moved_to(Status::Closed),
        customer: Cents(0),
        merchant: ch.kept,
    })
}

// 0A
pub fn settle(sound: Sound, at: Context) -> Result<Accepted, Refusal>
    ensures { ruled_of sound.channel 0 result ≡ ruling sound.channel (settle at sound.channel) }
{
    let ch = sound.channel;
    let (customer, merchant) = match Status::try_from(ch.status) {
        Ok(Status::MerchantClosing) => (Cents(0), sound.total()),
        Ok(Status::CustomerClosing) => (ch.kept, Cents(0)),
        _ => return Err(Refusal::Status),
    };
    ensure(ch.deadline <= at.clock, Refusal::Deadline)?;
    Ok(Accepted {
        channel: ch.moved_to(Status::Closed),
        customer,
        merchant,
    })
}
