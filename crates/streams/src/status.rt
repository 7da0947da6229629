// The status that a program ends with.
ghost use Rattle.std.specs.Prelude.{◌≡◌, MatchResult};
ghost use Rattle.std.specs.IoError.{error_kind};
ghost use Rattle.streams.specs.Status.{status_of};

use std::io;
use std::io::ErrorKind;

// What a shell shows for the signal of a closed pipe where the output was closed, else 0.
pub fn status_after(done: io::Result<()>) -> u8
    ensures { MatchResult done (λ u. result ≡ 0) (λ e. result ≡ status_of (error_kind e)) }
{
    match done {
        Ok(()) => 0,
        Err(e) => match e.kind() {
            ErrorKind::BrokenPipe => 141,
            _ => 0,
        },
    }
}
