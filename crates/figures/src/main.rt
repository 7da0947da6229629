// Runs rows from standard input on one book, and prints what each comes to: openings, commands, readings, due, and values written into
// the lent book from outside.
#![tactic(auto)]

mod book;
mod lines;
mod rows;

use std::process::ExitCode;
use streams::run_whole;

// A closed output ends the program without a word.
fn main(rt: HostRuntime) -> ExitCode {
    ExitCode::from(run_whole(&mut rt.stdin(), |input| rows::run(&rt, input)))
}
