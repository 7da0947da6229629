// What comes next in a journal.
ghost use Rattle.std.specs.Prelude.{◌≡◌, ◌-◌, drop};
ghost use Rattle.journal.specs.Runs.{next_of, ahead_of, ahead_in, number_of};

use arbiter::size_of;

// Why a run stops: no bytes left, first byte unknown, fewer bytes than the command needs, no line left.
#[derive(Clone, Copy, PartialEq, Eq)]
pub enum Cause {
    NoBytes = 0,
    Opcode = 1,
    Length = 2,
    NoLine = 13,
}

impl From<Cause> for u64 {
    ghost from_gives = { λ cause number. number ≡ number_of cause };

    fn from(cause: Cause) -> u64 {
        cause as u64
    }
}

// Where the command at a place ends, with n of so many lines written. The first cause decides: no bytes left, no line left, first byte unknown, fewer bytes than it needs.
#[tactic(auto, using(crate::proofs::Running::by_numbers), unfolding(crate::specs::Runs::next_by))]
pub fn next(commands: &[u8], at: usize, n: usize, room: usize) -> Result<usize, Cause>
    ensures { ahead_in at result ≡ ahead_of at (next_of (drop at commands.now) (room - n)) }
{
    if commands.len() <= at {
        return Err(Cause::NoBytes);
    }
    if room <= n {
        return Err(Cause::NoLine);
    }
    match size_of(commands[at]) {
        0 => Err(Cause::Opcode),
        size if commands.len() - at < size => Err(Cause::Length),
        size => Ok(at + size),
    }
}
