// Collecting a run's payments into a lent list.
ghost use Rattle.std.specs.Prelude.{◌≡◌};
ghost use Rattle.payments.specs.Answers.{counted_of};
ghost use Rattle.bank.specs.Answers.{collect_of};

use crate::paid::Payments;
use journal::Line;
use payments::Refusal;

// Stores the payments above zero of commands and their lines, and answers how many: 18 where the list is too short for them; refused, it keeps every entry.
#[tactic(auto, using(crate::proofs::Pairs::few, crate::proofs::Storing::too_many, crate::proofs::Storing::none_stored))]
pub fn collect(commands: &[u8], lines: &[Line], list: &mut [[u64; 3]]) -> Result<usize, Refusal>
    ensures { (counted_of result ≡ (collect_of commands.now lines.now list.old).answer)
        × (list.new ≡ (collect_of commands.now lines.now list.old).list) }
{
    let payments = Payments::new(commands, lines);
    let count = payments.count();
    if list.len() < count {
        return Err(Refusal::NoRoom);
    }
    // Stored by index: tried, and under `list.iter_mut().zip(..)` the loop's invariant has no name for what the list holds.
    for (i, payment) in payments.enumerate() {
        list[i] = payment.into();
    }
    Ok(count)
}
