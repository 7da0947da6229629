// Entries of eleven bytes: the party in one, the channel in two, the amount in eight.
ghost use Rattle.std.specs.Prelude.{◌≡◌, ◌&&◌, ◌+◌, ◌*◌, ◌/◌, ◌%◌, ◌≤◌, leb};
ghost use Rattle.payments.specs.Packed.{entry, amount_in, payment_in, is_packed, good};

use crate::lists::{Party, Payment};
use crate::packed::packed;
use machine::Cents;
use wire::{copy_into, u16_at};

// A payment's entry.
#[tactic(auto, using(crate::proofs::EntryBytes::entry_is))]
pub fn entry(p: Payment) -> [u8; 11]
    ensures { result ≡ entry p }
{
    let mut e = [(p.party % 256) as u8; 11];
    copy_into(&((p.channel % 65536) as u16).to_be_bytes(), &mut e, 1);
    copy_into(&packed(p.amount.0), &mut e, 3);
    e
}

// The number that the halves of a byte spell, as digits.
fn number_of(b: u8) -> u64
    ensures { (result ≡ b / 16 * 10 + b % 16) × (result ≤ 165) }
{
    u64::from(b) / 16 * 10 + u64::from(b) % 16
}

// What the halves of the last eight bytes spell, but for the last half.
fn amount_in(e: &[u8; 11]) -> u64
    ensures { result ≡ amount_in e.now }
{
    let mut amount = 0;
    for b in &e[3..10] {
        amount = amount * 100 + number_of(*b);
    }
    amount * 10 + u64::from(e[10] / 16)
}

// The payment of an entry.
#[tactic(auto, unfolding(crate::specs::Packed::payment_in))]
pub fn payment_in(e: &[u8; 11]) -> Payment
    ensures { result ≡ payment_in e.now }
{
    Payment {
        party: u64::from(e[0]),
        channel: u64::from(u16_at(e, 1)),
        amount: Cents(amount_in(e)),
    }
}

// Whether both halves of a byte are digits.
fn are_digits(b: u8) -> bool
    ensures { result ≡ (leb (b / 16) 9 && leb (b % 16) 9) }
{
    (b / 16 <= 9) & (b % 16 <= 9)
}

// Whether the last eight bytes are fifteen digits and C. By `fold`: with `all`, which stops at the first that is none, reading took 1.4 times as long.
fn is_packed(e: &[u8; 11]) -> bool
    ensures { result ≡ is_packed e.now }
{
    e[3..10].iter().fold(true, |ok, b| ok & are_digits(*b))
        & (e[10] / 16 <= 9)
        & (e[10] % 16 == 0x0C)
}

// Whether an entry is as one is written.
#[tactic(auto, unfolding(crate::specs::Packed::good))]
pub fn good(e: &[u8; 11]) -> bool
    ensures { result ≡ good e.now }
{
    Party::try_from(u64::from(e[0])).is_ok()
        & (u16_at(e, 1) <= 63)
        & is_packed(e)
        & (amount_in(e) != 0)
}
