// The lines of a statement, as text.
ghost use Rattle.std.specs.Prelude.{◌≡◌, ◌++◌, ◌+◌, ◌*◌, ◌^◌, ◌<◌, ◌≤◌, length};
ghost use Rattle.arrayvec.specs.ArrayVec.{array_vec_len};
ghost use Rattle.decimals.specs.Numbers.{row};
ghost use Rattle.report.specs.Lines.{fields, lines_from, end_line};

use arrayvec::ArrayVec;
use decimals::push_row;
use journal::Line;

// Text with room for 64 lines and an end.
pub type Text = ArrayVec<u8, 8110>;

// Number, refusal, paid to the customer, paid to the merchant, chain steps, fee.
#[tactic(auto, unfolding(crate::specs::Lines::fields))]
fn put_line(out: &mut Text, number: usize, line: Line)
    requires { array_vec_len out.old + 126 ≤ 8110 }
    ensures text { out.new.items ≡ out.old.items ++ row (fields number line) }
    ensures size { array_vec_len out.new ≤ array_vec_len out.old + 126 }
{
    let answer = line.answer;
    let numbers = [
        number as u64,
        u64::from(answer.refusal),
        answer.customer.0,
        answer.merchant.0,
        u64::from(answer.steps),
        answer.fee.0,
    ];
    push_row(out, &numbers);
}

// Appends lines, numbered from a number on.
#[tactic(auto, using(crate::proofs::LineTexts::no_lines_yet, crate::proofs::LineTexts::lines_take, crate::proofs::LineTexts::lines_all, std::proofs::Common::append_assoc))]
pub fn put_lines(out: &mut Text, lines: &[Line], number: usize)
    requires { (array_vec_len out.old + 126 * length lines.now ≤ 8110) × (number + length lines.now < 2 ^ 64) }
    ensures text { out.new.items ≡ out.old.items ++ lines_from number lines.now }
    ensures size { array_vec_len out.new ≤ array_vec_len out.old + 126 * length lines.now }
{
    for (i, line) in lines.iter().enumerate() {
        put_line(out, number + i, *line);
    }
}

// Appends the last line: bytes used and cause.
#[tactic(auto, using(std::proofs::Common::append_assoc), unfolding(crate::specs::Lines::end_line))]
pub fn put_end(out: &mut Text, used: usize, cause: u64)
    requires { array_vec_len out.old + 46 ≤ 8110 }
    ensures text { out.new.items ≡ out.old.items ++ end_line used cause }
    ensures size { array_vec_len out.new ≤ array_vec_len out.old + 46 }
{
    out.try_extend_from_slice(b"end ").unwrap();
    push_row(out, &[used as u64, cause]);
}
