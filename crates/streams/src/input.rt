// Inputs that a program reads whole.
ghost use Rattle.std.specs.Prelude.{◌≡◌, ◌≤◌, ◌⊎◌, IfOk, length, take};
ghost use Rattle.std.specs.Io.KnownBytes.{Consumes, IsAtEnd};
ghost use Rattle.streams.specs.Input.{read_of};

use std::io::Read;

// A read failed; so many bytes were read before it.
#[derive(Clone, Copy, Debug, PartialEq, Eq)]
pub struct Failed {
    pub read: usize,
}

// Reads until the buffer is full, the input ends or a read fails, and answers how many bytes stand at the buffer's start.
#[tactic(auto, using(crate::proofs::Taking::consumed_on))]
pub fn read_input<R: Read>(input: &mut R, buf: &mut [u8]) -> Result<usize, Failed>
    ensures within { read_of result ≤ length buf.new }
    ensures prefix { read_of result ≡ length (take (read_of result) buf.new) }
    ensures bytes { Consumes (R.remaining input.old) (R.remaining input.new) (take (read_of result) buf.new) }
    ensures end { IfOk result (λ n. (n ≡ length buf.old) ⊎ IsAtEnd (R.remaining input.new)) }
{
    // Counts the bytes that reads give, and is no index that a loop runs through.
    let mut n = 0;
    while n < buf.len() {
        match input.read(&mut buf[n..]) {
            Ok(0) => break,
            Ok(more) => n += more,
            Err(_) => return Err(Failed { read: n }),
        }
    }
    Ok(n)
}

// The same for a program that makes do with what there was before a read failed.
pub fn read_full<R: Read>(input: &mut R, buf: &mut [u8]) -> usize
    ensures within { result ≤ length buf.new }
    ensures bytes { Consumes (R.remaining input.old) (R.remaining input.new) (take result buf.new) }
{
    read_input(input, buf).unwrap_or_else(|failed| failed.read)
}
