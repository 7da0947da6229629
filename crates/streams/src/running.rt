// Programs that run on an input read whole.
ghost use Rattle.std.specs.Io.KnownBytes.{Consumes};
ghost use Rattle.streams.specs.Status.{IsStatusAfter};

use crate::input::read_full;
use crate::status::status_after;
use std::io;
use std::io::Read;

// Reads at most 65,536 bytes, runs on them, and answers the status to end with.
pub fn run_whole<R: Read, F: FnOnce(&[u8]) -> io::Result<()>>(input: &mut R, run: F) -> u8
    requires { (bytes : _) → F.pre run bytes }
    ensures { (bytes : _) × (done : _) × Consumes (R.remaining input.old) (R.remaining input.new) bytes.now
        × F.post run bytes done × IsStatusAfter done result }
{
    let mut bytes = [0u8; 65536];
    let n = read_full(input, &mut bytes);
    status_after(run(&bytes[..n]))
}
