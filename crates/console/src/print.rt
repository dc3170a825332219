// What is written in a form of its own.
use std::fmt;
use std::fmt::Display;

pub const UPPER: bool = true;

pub const LOWER: bool = false;

// Bytes as hexadecimal digits in upper or lower case, with a space before each byte.
#[derive(Clone, Copy)]
pub struct Hex<'a, const CASE: bool>(pub &'a [u8]);

impl<const CASE: bool> Display for Hex<'_, CASE> {
    fn fmt<W: fmt::Write>(&self, f: &mut fmt::Formatter<W>) -> fmt::Result {
        for byte in self.0 {
            if CASE == UPPER {
                write!(f, " {byte:02X}")?;
            } else {
                write!(f, " {byte:02x}")?;
            }
        }
        Ok(())
    }
}

// A number of things, of which one is named.
#[derive(Clone, Copy)]
pub struct Count<'a>(pub usize, pub &'a str);

impl Display for Count<'_> {
    fn fmt<W: fmt::Write>(&self, f: &mut fmt::Formatter<W>) -> fmt::Result {
        let Count(n, thing) = *self;
        let plural = if n == 1 { "" } else { "s" };
        write!(f, "{n} {thing}{plural}")
    }
}
