// The rule of each command on one channel: what it makes of it, whom it pays, or the first check that it fails. Only the product's own parts call it.
#![tactic(auto)]

ghost use Rattle.std.specs.Prelude.{◌≡◌, ◌≤◌, length};
ghost use Rattle.sha256.specs.Digest.{sha256};
ghost use Rattle.machine.specs.Format.{size};
ghost use Rattle.machine.specs.Book.{limit};
ghost use Rattle.machine.specs.Machine.{ruling, plan};
ghost use Rattle.machine.specs.Outcomes.{opcode_number, ruled_of};
ghost use Rattle.machine.specs.Real.{lms_verdict};

use closing::{customer_close, dispute, merchant_close, mutual_close, settle};
use funding::{establish_from, fund_customer, fund_merchant, reclaim};
use holdings::Sound;
use machine::{Accepted, Cents, Context, Opcode, Refusal};
use wire::u64_at;

// What a command makes of its channel, and the chain steps that it made. 01 is no channel's.
#[tactic(auto, unfolding(machine::specs::Format::size, machine::specs::Machine::plan, machine::specs::Machine::ruling, machine::specs::Machine::concluded, machine::specs::Machine::answer, machine::specs::Checks::ask))]
pub fn rule(
    op: Opcode,
    sound: Sound,
    at: Context,
    command: &[u8],
    steps: &mut u32,
) -> Result<Accepted, Refusal>
    requires { (length command.now ≡ size (opcode_number op)) × (at.clock.0 ≤ limit) }
    ensures { ruled_of sound.channel steps.new result ≡ ruling sound.channel (plan lms_verdict sha256 (opcode_number op) at command.now sound.channel) }
{
    let ch = sound.channel;
    *steps = 0;
    match op {
        Opcode::Clock => Err(Refusal::Opcode),
        Opcode::Establish => establish_from(ch, at, command),
        Opcode::FundCustomer => fund_customer(ch, Cents(u64_at(command, 3))),
        Opcode::FundMerchant => fund_merchant(ch, Cents(u64_at(command, 3))),
        Opcode::Reclaim => reclaim(ch, at, command, steps),
        Opcode::MutualClose => mutual_close(sound, at, command, steps),
        Opcode::CustomerClose => customer_close(sound, at, command, steps),
        Opcode::MerchantClose => merchant_close(ch, at, command, steps),
        Opcode::Dispute => dispute(ch, at, command, steps),
        Opcode::Settle => settle(sound, at),
    }
}
