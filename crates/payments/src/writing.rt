// Writing a list of payments to a lent buffer.
ghost use Rattle.std.specs.Prelude.{◌≡◌, map, ◌*◌, ◌≤◌, length};
ghost use Rattle.wire.specs.Parts.{pasted, all};
ghost use Rattle.payments.specs.Payments.{payment_of};
ghost use Rattle.payments.specs.Packed.{written};
ghost use Rattle.payments.specs.Answers.{writable, counted_of, write_of};

use crate::entries::entry;
use crate::lists::{Party, Payment, Refusal};
use wire::copy_into;

// Whether an entry can hold the payment.
#[tactic(auto, unfolding(crate::specs::Answers::writable))]
fn writable(p: Payment) -> bool
    ensures { result ≡ writable p }
{
    let amount = p.amount.0;
    Party::try_from(p.party).is_ok()
        & (p.channel <= 63)
        & (amount != 0)
        & (amount <= 999999999999999)
}

fn all_writable(list: &[[u64; 3]]) -> bool
    ensures { result ≡ all writable (map payment_of list.now) }
{
    list.iter().all(|e| writable(Payment::from(*e)))
}

#[tactic(auto, using(crate::proofs::Listing::entry_put, wire::proofs::Pasting::pasted_none), unfolding(crate::specs::Packed::written))]
fn put_entries(list: &[[u64; 3]], buffer: &mut [u8])
    requires { 11 * length list.now ≤ length buffer.old }
    ensures { buffer.new ≡ pasted buffer.old 0 (written (map payment_of list.now)) }
{
    for (i, e) in list.iter().enumerate() {
        copy_into(&entry(Payment::from(*e)), buffer, 11 * i);
    }
}

// Every payment of the list as an entry: 17 where one cannot be written, then 18 where the buffer is too short; refused, the buffer keeps every byte.
#[tactic(auto, unfolding(crate::specs::Answers::write_of, crate::specs::Answers::refusal_of, machine::specs::Checks::ask))]
pub fn write(list: &[[u64; 3]], buffer: &mut [u8]) -> Result<usize, Refusal>
    ensures { (counted_of result ≡ (write_of (map payment_of list.now) buffer.old).answer)
        × (buffer.new ≡ (write_of (map payment_of list.now) buffer.old).buffer) }
{
    if !all_writable(list) {
        return Err(Refusal::Unwritable);
    }
    if buffer.len() / 11 < list.len() {
        return Err(Refusal::NoRoom);
    }
    put_entries(list, buffer);
    Ok(list.len())
}
