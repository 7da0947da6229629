// A statement, part by part.
ghost use Rattle.std.specs.Prelude.{◌≡◌, ◌+◌, ◌≤◌, length, drop, Some};
ghost use Rattle.machine.specs.Opening.{opening, plainly, blank_book};
ghost use Rattle.report.specs.Statement.{no_lines};
ghost use Rattle.report.specs.Parts.{first_part, next_part, told, first_of, handed};

use crate::lines::{Text, put_end, put_lines};
use arbiter::{blank, opened};
use journal::{Cause, Line, run_of};
use machine::{Answer, Book, Cents};
use std::fmt;
use std::ops::ControlFlow;

// Why an input has no journal to run.
#[derive(Clone, Copy, Debug, PartialEq, Eq)]
pub enum Refused {
    NoBook,
    TooLong,
}

impl fmt::Display for Refused {
    ghost output = { λ refused. Some (told refused) };

    fn fmt<W: fmt::Write>(&self, f: &mut fmt::Formatter<W>) -> fmt::Result {
        f.write_str(match self {
            Refused::NoBook => "no book",
            Refused::TooLong => "too long",
        })
    }
}

// How far a statement has come: the book, the bytes used of the journal, the next line's number.
#[derive(Clone, Copy)]
pub struct Reached {
    pub book: Book,
    pub used: usize,
    pub number: usize,
}

// Some of a statement's text, and how far it comes with it: more follows from there, or it ends there.
#[derive(Drop)]
pub struct Part {
    pub text: Text,
    pub next: ControlFlow<Reached, Reached>,
}

// Lines to write to.
#[tactic(auto, unfolding(crate::specs::Statement::no_lines))]
fn no_lines() -> [Line; 64]
    ensures { result ≡ no_lines 64 }
{
    let answer = Answer {
        refusal: 0,
        customer: Cents(0),
        merchant: Cents(0),
        steps: 0,
        fee: Cents(0),
    };
    [Line { answer }; 64]
}

// The book that an id opens.
fn book_of(id: &[u8]) -> Book
    ensures { result ≡ (opening blank_book (plainly id.now)).book }
{
    match opened(id) {
        Ok(book) => book,
        Err(_) => blank(),
    }
}

// Where the statement of an input begins: with the book that its first 16 bytes open, before its journal.
#[tactic(auto, unfolding(crate::specs::Parts::first_part))]
pub fn begin(input: &[u8]) -> Result<Reached, Refused>
    ensures { first_of result ≡ first_part input.now }
{
    if input.len() < 16 {
        return Err(Refused::NoBook);
    }
    if input.len() > 65536 {
        return Err(Refused::TooLong);
    }
    Ok(Reached {
        book: book_of(&input[..16]),
        used: 0,
        number: 1,
    })
}

// The part that follows, of an input that has an id: a run on the rest of the journal, and the end where lines are not short.
pub fn next_part(input: &[u8], from: Reached) -> Part
    requires { (16 + from.used ≤ length input.now) × (from.number ≤ from.used + 1) }
    ensures { result ≡ handed (next_part (drop 16 input.now) from) }
{
    let done = run_of(from.book, &input[16 + from.used..], no_lines());
    let (book, lines, ran) = (done.book, done.lines, done.ran);
    let used = from.used + ran.used;
    let number = from.number + ran.lines;
    let reached = Reached { book, used, number };
    let mut text = Text::new();
    put_lines(&mut text, &lines[..ran.lines], from.number);
    if ran.cause == u64::from(Cause::NoLine) {
        let next = ControlFlow::Continue(reached);
        return Part { text, next };
    }
    put_end(&mut text, used, ran.cause);
    let next = ControlFlow::Break(reached);
    Part { text, next }
}
