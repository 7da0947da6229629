// A reading of one channel of a book.
ghost use Rattle.std.specs.Prelude.{◌≡◌};
ghost use Rattle.machine.specs.Book.{reading};

use command::sound;
use holdings::{Sound, unread};
use machine::{Book, Reading, Refusal};

// Of an unsound book 99 and zeros, of a sound one with n from 64 on 4 and zeros.
#[tactic(auto, unfolding(machine::specs::Book::reading))]
pub fn read(book: &Book, n: usize) -> Reading
    ensures { result ≡ reading book.now n }
{
    if !sound(book) {
        return unread(u32::from(Refusal::Book));
    }
    if n >= 64 {
        return unread(u32::from(Refusal::Channel));
    }
    let sound = Sound {
        channel: book.channels[n],
    };
    sound.reading()
}

// The same of a book by value.
pub fn read_of(book: Book, n: usize) -> Reading
    ensures { result ≡ reading book n }
{
    read(&book, n)
}
