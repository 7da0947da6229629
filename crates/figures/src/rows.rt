// A row is a byte that says what it is, two bytes of length, and so many bytes.
ghost use Rattle.std.specs.Prelude.{◌<◌, ◌≤◌, IfSome, length};

use crate::book::overwrite;
use crate::lines::{print_answer, print_due, print_opened, print_reading};
use arbiter::{Book, Refusal, Settings};
use arrayvec::ArrayVec;
use std::io;
use streams::field;
use wire::{u16_at, u32_at};

// What a row is, by its first byte.
#[derive(Clone, Copy)]
enum Kind {
    Open,
    Command,
    Reading,
    Due,
    OpenWith,
    Again,
    OpenDated,
    Write,
}

impl From<u8> for Kind {
    fn from(byte: u8) -> Kind {
        match byte {
            1 => Kind::Open,
            2 => Kind::Command,
            3 => Kind::Reading,
            4 => Kind::Due,
            6 => Kind::OpenWith,
            7 => Kind::Again,
            8 => Kind::OpenDated,
            _ => Kind::Write,
        }
    }
}

#[derive(Clone, Copy)]
struct Row<'a> {
    kind: Kind,
    bytes: &'a [u8],
}

// The row that m begins with, and what stands after it. None where no whole row stands there.
fn first_row(m: &[u8]) -> Option<(Row<'_>, &[u8])>
    ensures { IfSome result (λ p. length p.1.now < length m.now) }
{
    let (kind, rest) = m.split_first()?;
    let (bytes, rows) = field(rest)?;
    let kind = Kind::from(*kind);
    Some((Row { kind, bytes }, rows))
}

// The settings in the first eight bytes of a row: four of default delay, four of fee.
fn settings_in(bytes: &[u8], dated: bool) -> Settings
    requires { 8 ≤ length bytes.now }
{
    Settings {
        delay: u32_at(bytes, 0),
        fee: u32_at(bytes, 4),
        dated,
    }
}

// An opening by value: a refused one leaves the book that stood there.
fn put_opened(rt: &impl Print, book: &mut Book, opened: Result<Book, Refusal>) -> io::Result<()> {
    let told = match opened {
        Ok(fresh) => {
            *book = fresh;
            Ok(())
        }
        Err(refusal) => Err(refusal),
    };
    print_opened(rt, told)
}

// The row's bytes as a command, on the book by value.
fn command_row(rt: &impl Print, book: &mut Book, bytes: &[u8]) -> io::Result<()> {
    let stepped = arbiter::step(*book, bytes);
    *book = stepped.book;
    print_answer(rt, stepped.answer)
}

// An opening with settings and no list of dates: the settings, then the id. A number that is no date stands there unseen.
fn open_with_row(rt: &impl Print, book: &mut Book, bytes: &[u8]) -> io::Result<()> {
    if bytes.len() < 8 {
        return Ok(());
    }
    let settings = settings_in(bytes, false);
    put_opened(rt, book, arbiter::opened_with(&bytes[8..], settings, &[0]))
}

// The numbers of four bytes each, at most 72.
fn dates_in(bytes: &[u8]) -> ArrayVec<u32, 72> {
    let mut dates = ArrayVec::new();
    let (numbers, _) = bytes.as_chunks::<4>();
    for number in numbers {
        let _ = dates.try_push(u32::from_be_bytes(*number));
    }
    dates
}

// The same with a list: the settings, an id of 16 bytes, then four bytes for each of at most 72 dates.
fn open_dated_row(rt: &impl Print, book: &mut Book, bytes: &[u8]) -> io::Result<()> {
    if bytes.len() < 24 || bytes.len() > 312 {
        return Ok(());
    }
    let settings = settings_in(bytes, true);
    let dates = dates_in(&bytes[24..]);
    put_opened(
        rt,
        book,
        arbiter::opened_with(&bytes[8..24], settings, dates.as_slice()),
    )
}

// A reading of the channel that two bytes name.
fn reading_row(rt: &impl Print, book: &Book, bytes: &[u8]) -> io::Result<()> {
    if bytes.len() != 2 {
        return Ok(());
    }
    print_reading(rt, arbiter::read_of(*book, u16_at(bytes, 0) as usize))
}

// What a row makes of the book.
fn run_row(rt: &impl Print, book: &mut Book, row: Row<'_>) -> io::Result<()> {
    let bytes = row.bytes;
    match row.kind {
        Kind::Open => put_opened(rt, book, arbiter::opened(bytes)),
        Kind::Command => command_row(rt, book, bytes),
        Kind::Reading => reading_row(rt, book, bytes),
        Kind::Due => print_due(rt, arbiter::due_of(*book)),
        Kind::OpenWith => open_with_row(rt, book, bytes),
        Kind::OpenDated => open_dated_row(rt, book, bytes),
        Kind::Again | Kind::Write => {
            overwrite(book, bytes);
            Ok(())
        }
    }
}

// The row of m that begins at the place in four bytes.
fn row_at<'a>(m: &'a [u8], place: &[u8]) -> Option<Row<'a>> {
    if place.len() != 4 {
        return None;
    }
    let (row, _) = first_row(m.get(u32_at(place, 0) as usize..)?)?;
    Some(row)
}

// Runs every whole row of m, on a book to lend; a row may stand for another one, once more.
pub fn run(rt: &impl Print, m: &[u8]) -> io::Result<()> {
    let mut book = arbiter::blank();
    let mut rest = m;
    while let Some((row, after)) = first_row(rest) {
        let meant = match row.kind {
            Kind::Again => row_at(m, row.bytes),
            _ => Some(row),
        };
        if let Some(row) = meant {
            run_row(rt, &mut book, row)?;
        }
        rest = after;
    }
    Ok(())
}
