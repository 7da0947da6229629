// Bytes in print.
use std::fmt;

// Bytes that are shown as two hexadecimal digits each. `signings` has the same ten lines: in a library they would want a definition and edits, for two programs of tests.
#[derive(Clone, Copy)]
pub struct Hex<'a>(pub &'a [u8]);

impl fmt::Display for Hex<'_> {
    fn fmt<W: fmt::Write>(&self, f: &mut fmt::Formatter<W>) -> fmt::Result {
        for byte in self.0 {
            write!(f, "{byte:02x}")?;
        }
        Ok(())
    }
}
