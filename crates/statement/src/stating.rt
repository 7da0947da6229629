// An input and its statement.
ghost use Rattle.std.specs.Prelude.{OnOk, IfSome};
ghost use Rattle.std.specs.Io.KnownBytes.{Appends};
ghost use Rattle.report.specs.Statement.{statement_of};

use crate::printing::print_statement;
use std::io;
use std::io::{Read, Write};
use streams::{Failed, read_input};

// Why a statement is not there, or not whole: its input failed, or its output took no more.
#[derive(Drop)]
pub enum Failure {
    Input(Failed),
    Output(io::Error),
}

impl From<Failed> for Failure {
    fn from(failed: Failed) -> Failure {
        Failure::Input(failed)
    }
}

impl From<io::Error> for Failure {
    fn from(error: io::Error) -> Failure {
        Failure::Output(error)
    }
}

// Prints the statement of an input. One that fails has none.
#[tactic(auto, using(crate::proofs::Taking::whole_statement))]
pub fn state<R: Read, W: Write>(input: &mut R, output: &mut W) -> Result<(), Failure>
    ensures { OnOk result (IfSome (R.remaining input.old) (λ bytes. Appends (W.contents output.old) (W.contents output.new) (statement_of bytes))) }
{
    // Room for the longest input and one byte more: no byte past that is read.
    let mut bytes = [0u8; 65537];
    let n = read_input(input, &mut bytes)?;
    print_statement(output, &bytes[..n])?;
    Ok(())
}
