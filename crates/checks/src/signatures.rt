// Checks 11 and 12: is a signature good?
ghost use Rattle.std.specs.Prelude.{◌≡◌, true, false, ◌+◌, ◌≤◌, length, take, MatchResult};
ghost use Rattle.machine.specs.Format.{message};
ghost use Rattle.machine.specs.Machine.{verdict};
ghost use Rattle.machine.specs.Real.{lms_verdict};
ghost use Rattle.checks.specs.Verdicts.{verdict_of, Says};

use lms::{Outcome, check};
use machine::Refusal;
use wire::copy_into;

// What a command's sides sign: its opcode, the book's id, and its operands, which end at `end`.
#[derive(Clone, Copy)]
pub struct Signed<'a> {
    pub id: [u8; 16],
    pub command: &'a [u8],
    pub end: usize,
    ghost within: { (3 ≤ end) × (end ≤ 51) × (end ≤ length command.now) },
}

impl<'a> Signed<'a> {
    // A buffer that begins with the signed message.
    fn message(self) -> [u8; 67]
        ensures { take (self.entry.end + 16) result ≡ message self.entry.end self.entry.id self.entry.command.now }
    {
        let mut buffer = [0u8; 67];
        copy_into(&self.command[0..1], &mut buffer, 0);
        copy_into(&self.id, &mut buffer, 1);
        copy_into(&self.command[1..self.end], &mut buffer, 17);
        buffer
    }

    // What the check of the signature that stands at `at` in the command comes to: a message of at most 67 bytes is never too long.
    fn outcome(self, key: [u8; 56], at: usize) -> Outcome
        requires { at + 1452 ≤ length self.command.now }
        ensures verdict { verdict_of result ≡ verdict lms_verdict key self.entry.id self.entry.command.now self.entry.end at }
        ensures bound { result.steps ≤ 8415 }
    {
        let buffer = self.message();
        check(&key, &buffer[..self.end + 16], &self.command[at..at + 1452]).unwrap()
    }

    // The leaf of that signature, where it is good. Its chain steps count, good or not.
    pub fn checked(
        self,
        key: [u8; 56],
        at: usize,
        refusal: Refusal,
        steps: &mut u32,
    ) -> Result<u32, Refusal>
        requires { (steps.old ≤ 8415) × (at + 1452 ≤ length self.command.now) }
        ensures good { Says (verdict lms_verdict key self.entry.id self.entry.command.now self.entry.end at) refusal result }
        ensures counted { steps.new ≡ steps.old + (verdict lms_verdict key self.entry.id self.entry.command.now self.entry.end at).steps }
        ensures steps_bound { steps.new ≤ steps.old + 8415 }
    {
        let outcome = self.outcome(key, at);
        *steps += outcome.steps;
        outcome.leaf.ok_or(refusal)
    }
}
