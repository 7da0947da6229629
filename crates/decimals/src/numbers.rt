// Numbers in a row, as text: in decimal, a blank between two, and the byte 0A at the end.
ghost use Rattle.std.specs.Prelude.{◌≡◌, [], ◌∷◌, ◌++◌, ◌+◌, ◌*◌, ◌≤◌, length};
ghost use Rattle.arrayvec.specs.ArrayVec.{array_vec_len};
ghost use Rattle.wire.specs.Parts.{pasted};
ghost use Rattle.decimals.specs.Numbers.{decimal, row};

use arrayvec::ArrayVec;
use wire::copy_into;

// Appends n and then the byte that closes it.
#[tactic(auto, using(crate::proofs::Numerals::decimal_law, std::proofs::Common::append_assoc))]
fn push_number<const ROOM: usize>(out: &mut ArrayVec<u8, ROOM>, n: u64, close: u8)
    requires { array_vec_len out.old + 21 ≤ ROOM }
    ensures text { out.new.items ≡ out.old.items ++ (decimal n ++ (close ∷ [])) }
    ensures size { array_vec_len out.new ≤ array_vec_len out.old + 21 }
{
    // An array with a count beside it: `io::decimal` asks for the one and answers the other.
    let mut digits = [0u8; 20];
    let count = io::decimal(n, &mut digits);
    out.try_extend_from_slice(&digits[..count]).unwrap();
    out.push(close);
}

// Appends a row of numbers.
#[tactic(auto, using(crate::proofs::Rows::row_closed, crate::proofs::Rows::row_none, crate::proofs::Rows::none_yet, crate::proofs::Rows::blanked_take, std::proofs::Common::append_assoc))]
pub fn push_row<const ROOM: usize>(out: &mut ArrayVec<u8, ROOM>, numbers: &[u64])
    requires { array_vec_len out.old + 21 * length numbers.now ≤ ROOM }
    ensures text { out.new.items ≡ out.old.items ++ row numbers.now }
    ensures size { array_vec_len out.new ≤ array_vec_len out.old + 21 * length numbers.now }
{
    let Some((last, others)) = numbers.split_last() else {
        return;
    };
    for n in others {
        push_number(out, *n, b' ');
    }
    push_number(out, *last, b'\n');
}

// Writes n at a place of out, then the byte that closes it, and answers the place after that.
fn put_number(out: &mut [u8], at: usize, n: u64, close: u8) -> usize
    requires { at + 21 ≤ length out.old }
    ensures { (out.new ≡ pasted out.old at (decimal n ++ (close ∷ [])))
        × (result ≡ at + length (decimal n ++ (close ∷ []))) × (result ≤ at + 21) }
{
    let mut text = ArrayVec::<u8, 21>::new();
    push_number(&mut text, n, close);
    copy_into(text.as_slice(), out, at);
    at + text.len()
}

// Writes a row of numbers at a place of out, and answers the place after it.
pub fn put_row(out: &mut [u8], at: usize, numbers: &[u64]) -> usize
    requires { at + 21 * length numbers.now ≤ length out.old }
    ensures { (out.new ≡ pasted out.old at (row numbers.now))
        × (result ≡ at + length (row numbers.now)) × (result ≤ at + 21 * length numbers.now) }
{
    let Some((last, others)) = numbers.split_last() else {
        return at;
    };
    let mut place = at;
    for n in others {
        place = put_number(out, place, *n, b' ');
    }
    put_number(out, place, *last, b'\n')
}
