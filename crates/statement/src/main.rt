// Reads a book's id and a journal from standard input, and prints a line for each command and a last one for the journal.
#![tactic(auto)]

mod printing;
mod stating;

use crate::stating::{Failure, state};
use std::process::ExitCode;
use streams::status_after;

// A closed output ends the program without a word; an input that fails has no statement, only a complaint.
fn main(rt: HostRuntime) -> ExitCode {
    match state(&mut rt.stdin(), &mut rt.stdout()) {
        Ok(()) => ExitCode::SUCCESS,
        Err(Failure::Input(_)) => {
            let _ = eprintln!(rt; "statement: the input failed");
            ExitCode::SUCCESS
        }
        Err(Failure::Output(e)) => ExitCode::from(status_after(Err(e))),
    }
}
