// The statement of an input, part by part.
ghost use Rattle.std.specs.Prelude.{OnOk, [], ◌∷◌, ◌++◌};
ghost use Rattle.std.specs.Io.KnownBytes.{Appends};
ghost use Rattle.report.specs.Parts.{told};
ghost use Rattle.report.specs.Statement.{statement_of};

use report::{Refused, Text, begin, next_part};
use std::io;
use std::io::Write;
use std::ops::ControlFlow;

// Prints the line that tells a refusal, in one write: who reads the output never has a part of it alone.
fn print_refusal<W: Write>(output: &mut W, refused: Refused) -> io::Result<()>
    ensures { OnOk result (Appends (W.contents output.old) (W.contents output.new) (told refused ++ (0x0A ∷ []))) }
{
    let mut line = Text::new();
    writeln!(line, "{refused}")?;
    output.write_all(line.as_slice())
}

// Prints each part and goes on to the next; a closed output ends it.
pub fn print_statement<W: Write>(output: &mut W, input: &[u8]) -> io::Result<()>
    ensures { OnOk result (Appends (W.contents output.old) (W.contents output.new) (statement_of input.now)) }
{
    let mut from = match begin(input) {
        Ok(reached) => reached,
        Err(refused) => return print_refusal(output, refused),
    };
    // No `for`: each part is made of the place that the one before reached.
    loop {
        let part = next_part(input, from);
        output.write_all(part.text.as_slice())?;
        match part.next {
            ControlFlow::Continue(reached) => from = reached,
            ControlFlow::Break(_) => return Ok(()),
        }
    }
}
