// Prints what published messages and signatures come to, and messages and hashes at the edges of blocks, limits and checksums.
#![tactic(auto)]

mod hash;
mod print;
mod signature;

use std::io;
use std::io::Read;
use std::process::ExitCode;
use streams::status_after;

fn run(rt: &impl Print, input: &mut impl Read) -> io::Result<()> {
    hash::print_all(rt)?;
    signature::print_all(rt, input)
}

// A closed output ends the program without a word.
fn main(rt: HostRuntime) -> ExitCode {
    ExitCode::from(status_after(run(&rt, &mut rt.stdin())))
}
