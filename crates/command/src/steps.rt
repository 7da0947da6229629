// One command on one book.
ghost use Rattle.std.specs.Prelude.{◌≡◌, true, length};
ghost use Rattle.machine.specs.Format.{opcode, size, place};
ghost use Rattle.machine.specs.Book.{sound};
ghost use Rattle.machine.specs.Outcomes.{opcode_number};
ghost use Rattle.machine.specs.Real.{real_step};
ghost use Rattle.command.specs.Parts.{clocked, clocked_of, stepped_of};
ghost use Rattle.command.specs.Parts.{OnChannel};

use crate::soundness::sound;
use channel::rule;
use checks::ensure;
use fees::charged;
use holdings::Sound;
use machine::{Answer, Book, Cents, Context, LIMIT, Opcode, Refusal, Seconds, Stepped};
use wire::{u16_at, u64_at};

// The whole length of a command.
#[tactic(auto, unfolding(machine::specs::Format::size))]
fn length_of(op: Opcode) -> usize
    ensures { result ≡ size (opcode_number op) }
{
    match op {
        Opcode::Clock => 9,
        Opcode::Establish => 135,
        Opcode::FundCustomer | Opcode::FundMerchant => 11,
        Opcode::Reclaim | Opcode::MerchantClose => 1455,
        Opcode::MutualClose => 2923,
        Opcode::CustomerClose => 2955,
        Opcode::Dispute => 1487,
        Opcode::Settle => 3,
    }
}

// The same of its first byte; 0 for a byte that is no opcode.
#[tactic(auto, using(crate::proofs::Stepping::no_size))]
pub fn size_of(op: u8) -> usize
    ensures { result ≡ size op }
{
    match Opcode::try_from(op) {
        Ok(op) => length_of(op),
        Err(_) => 0,
    }
}

// 01
#[tactic(auto, unfolding(machine::specs::Checks::ask, machine::specs::Machine::answer))]
fn set_clock(clock: &mut Seconds, time: Seconds) -> Result<(), Refusal>
    ensures { clocked_of clock.new result ≡ clocked clock.old time.0 }
{
    ensure((*clock <= time) & (time.0 <= LIMIT), Refusal::Clock)?;
    *clock = time;
    Ok(())
}

// 02 to 0A on a sound book, where the length is right.
fn on_channel(
    book: &mut Book,
    op: Opcode,
    command: &[u8],
    steps: &mut u32,
) -> Result<Answer, Refusal>
    requires { OnChannel book.old (opcode_number op) command.now }
    ensures { stepped_of book.new steps.new result ≡ real_step book.old command.now }
{
    *steps = 0;
    let n = u16_at(command, 1) as usize;
    ensure(n < 64, Refusal::Channel)?;
    let id = book.id;
    let at = Context {
        id,
        clock: book.clock,
        setup: book.setup,
    };
    let sound = Sound {
        channel: book.channels[n],
    };
    let accepted = rule(op, sound, at, command, steps)?;
    book.channels[n] = accepted.channel;
    let paid = Answer::paid(accepted.customer, accepted.merchant, *steps);
    Ok(charged(paid, book.setup.fee))
}

// A command on a lent book, checked and carried out, and the chain steps that it made.
fn carried(book: &mut Book, command: &[u8], steps: &mut u32) -> Result<Answer, Refusal>
    ensures { stepped_of book.new steps.new result ≡ real_step book.old command.now }
{
    *steps = 0;
    ensure(sound(book), Refusal::Book)?;
    let op = Opcode::try_from(command.first().copied().unwrap_or(0))?;
    ensure(command.len() == length_of(op), Refusal::Length)?;
    match op {
        Opcode::Clock => {
            set_clock(&mut book.clock, Seconds(u64_at(command, 1)))?;
            Ok(Answer::paid(Cents(0), Cents(0), 0))
        }
        _ => on_channel(book, op, command, steps),
    }
}

// A command on a lent book: it is changed in place, and the answer given.
pub fn carry_out(book: &mut Book, command: &[u8]) -> Answer
    ensures answer { result ≡ (real_step book.old command.now).answer }
    ensures book { book.new ≡ (real_step book.old command.now).book }
{
    let mut steps = 0;
    match carried(book, command, &mut steps) {
        Ok(answer) => answer,
        Err(refusal) => Answer::refused(refusal, steps),
    }
}

// A command on a book: the book that it leaves, and its answer.
pub fn step(mut book: Book, command: &[u8]) -> Stepped
    ensures { result ≡ real_step book command.now }
{
    let answer = carry_out(&mut book, command);
    Stepped { book, answer }
}
