// Reading payments into a lent list.
ghost use Rattle.std.specs.Prelude.{◌≡◌, map, ◌≤◌, length};
ghost use Rattle.wire.specs.Parts.{pasted, all};
ghost use Rattle.payments.specs.Payments.{listed};
ghost use Rattle.payments.specs.Packed.{good, payment_in};
ghost use Rattle.payments.specs.Answers.{counted_of, read_of};

use crate::entries::{good, payment_in};
use crate::lists::Refusal;

fn all_good(entries: &[[u8; 11]]) -> bool
    ensures { result ≡ all good entries.now }
{
    entries.iter().all(good)
}

#[tactic(auto, using(crate::proofs::Listing::payment_put, wire::proofs::Pasting::pasted_none))]
fn put_payments(entries: &[[u8; 11]], list: &mut [[u64; 3]])
    requires { length entries.now ≤ length list.old }
    ensures { list.new ≡ pasted list.old 0 (map listed (map payment_in entries.now)) }
{
    for (i, e) in entries.iter().enumerate() {
        list[i] = payment_in(e).into();
    }
}

// The payments of the entries: 18 for a length that is no multiple of 11 or a list that is too short, then 19 for an entry that is not as one is written;
// refused, the list keeps every entry.
#[tactic(auto, using(crate::proofs::Listing::chunks_are, crate::proofs::Listing::read_length), unfolding(crate::specs::Answers::filled, crate::specs::Answers::refusal_of, machine::specs::Checks::ask))]
pub fn read(bytes: &[u8], list: &mut [[u64; 3]]) -> Result<usize, Refusal>
    ensures { (counted_of result ≡ (read_of bytes.now list.old).answer)
        × (list.new ≡ (read_of bytes.now list.old).list) }
{
    let (entries, rest) = bytes.as_chunks::<11>();
    if !rest.is_empty() | (list.len() < entries.len()) {
        return Err(Refusal::NoRoom);
    }
    if !all_good(entries) {
        return Err(Refusal::BadEntry);
    }
    put_payments(entries, list);
    Ok(entries.len())
}
