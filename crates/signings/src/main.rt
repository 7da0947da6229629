// Runs rows from standard input on one signer, and prints what each comes to: key makings, signings with their checks, next leaves set from outside,
// and the root of a small tree.
#![tactic(auto)]

mod lines;
mod rows;
mod small_tree;

use std::process::ExitCode;
use streams::run_whole;

// A closed output ends the program without a word.
fn main(rt: HostRuntime) -> ExitCode {
    ExitCode::from(run_whole(&mut rt.stdin(), |input| rows::run(&rt, input)))
}
