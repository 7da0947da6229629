// The run: it writes a line for each command and stops at the first cause.
ghost use Rattle.std.specs.Prelude.{◌≡◌};
ghost use Rattle.journal.specs.Runs.{run_of, ran_of};

use crate::following::next;
use crate::lines::Line;
use arbiter::apply;
use machine::Book;

// What a run answers: the lines that it wrote, the bytes that it used, and the number of the cause why it stopped. C reads it from `finaruvom_run`.
#[repr(C)]
#[derive(Clone, Copy)]
pub struct Ran {
    pub lines: usize,
    pub used: usize,
    pub cause: u64,
}

// The commands in turn on the lent book, a line for each; later lines keep their content.
pub fn run(book: &mut Book, commands: &[u8], lines: &mut [Line]) -> Ran
    ensures { (result ≡ ran_of (run_of book.old commands.now lines.old))
        × (book.new ≡ (run_of book.old commands.now lines.old).book)
        × (lines.new ≡ (run_of book.old commands.now lines.old).lines) }
{
    // Both are answered, and a `for` over the lines would have to find the cause once more after the last one.
    let mut at = 0;
    let mut n = 0;
    let cause = loop {
        match next(commands, at, n, lines.len()) {
            Ok(end) => {
                let answer = apply(book, &commands[at..end]);
                lines[n] = Line { answer };
                at = end;
                n += 1;
            }
            Err(cause) => break cause,
        }
    };
    Ran {
        lines: n,
        used: at,
        cause: cause.into(),
    }
}

// What a run leaves, by value.
#[derive(Clone, Copy)]
pub struct Whole {
    pub book: Book,
    pub lines: [Line; 64],
    pub ran: Ran,
}

// The run by value, with 64 lines.
pub fn run_of(book: Book, commands: &[u8], lines: [Line; 64]) -> Whole
    ensures { (result.ran ≡ ran_of (run_of book commands.now lines))
        × (result.book ≡ (run_of book commands.now lines).book)
        × (result.lines ≡ (run_of book commands.now lines).lines) }
{
    let mut lent = book;
    let mut written = lines;
    let ran = run(&mut lent, commands, &mut written);
    Whole {
        book: lent,
        lines: written,
        ran,
    }
}
