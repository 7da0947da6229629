// The channel that is due next.
ghost use Rattle.std.specs.Prelude.{◌≡◌, true, ◌&&◌, ◌||◌, eqb, leb, ltb};
ghost use Rattle.wire.specs.Parts.{all};
ghost use Rattle.machine.specs.Book.{sound_channel, closing};
ghost use Rattle.machine.specs.Due.{sooner, soonest, value_of, due};
ghost use Rattle.arbiter.specs.Next.{soonest_in};

use command::sound;
use holdings::Sound;
use machine::{Book, Cents, Channel, Seconds, Status};

// A closing channel, its deadline and what it holds.
#[derive(Clone, Copy)]
pub struct Closing {
    pub number: u8,
    pub deadline: Seconds,
    pub held: Cents,
}

impl Closing {
    // The smaller deadline is first, and of equal ones the larger sum; a channel is before those after it that hold no more.
    fn precedes(self, rest: Closing) -> bool
        ensures { result ≡ (ltb self.deadline.0 rest.deadline.0 || (eqb self.deadline.0 rest.deadline.0 && leb rest.held.0 self.held.0)) }
    {
        (self.deadline < rest.deadline)
            | ((self.deadline == rest.deadline) & (rest.held <= self.held))
    }
}

fn is_closing(ch: Channel) -> bool
    ensures { result ≡ closing ch }
{
    ch.is(Status::MerchantClosing) | ch.is(Status::CustomerClosing)
}

// Channel n, or the soonest of those after it.
#[tactic(auto, unfolding(machine::specs::Due::sooner))]
fn sooner_of(n: u8, sound: Sound, rest: Option<Closing>) -> Option<Closing>
    ensures { soonest_in result ≡ sooner n sound.channel (soonest_in rest) }
{
    let ch = sound.channel;
    let this = Closing {
        number: n,
        deadline: ch.deadline,
        held: sound.held(),
    };
    match rest {
        _ if !is_closing(ch) => rest,
        Some(other) if !this.precedes(other) => rest,
        _ => Some(this),
    }
}

fn soonest_of(channels: &[Channel; 64]) -> Option<Closing>
    requires { all sound_channel channels.now ≡ true }
    ensures { soonest_in result ≡ soonest 0 channels.now }
{
    let mut best = None;
    // From the last to the first, as the definition goes; n is also what is answered.
    for n in (0..64u8).rev() {
        let sound = Sound {
            channel: channels[usize::from(n)],
        };
        best = sooner_of(n, sound, best);
    }
    best
}

// None exactly when the book is unsound or no channel is closing.
#[tactic(auto, unfolding(machine::specs::Due::due))]
pub fn due(book: &Book) -> Option<u8>
    ensures { value_of result ≡ due book.now }
{
    if !sound(book) {
        return None;
    }
    match soonest_of(&book.channels) {
        Some(best) => Some(best.number),
        None => None,
    }
}

// The same of a book by value.
pub fn due_of(book: Book) -> Option<u8>
    ensures { value_of result ≡ due book }
{
    due(&book)
}
