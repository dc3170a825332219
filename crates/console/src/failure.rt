// Telling on standard error why a read or a write failed.
use std::fmt::Display;
use std::io::{Cursor, Write};
use std::str::from_utf8;
use std::{fmt, io};

// The text of an error without the number of the system's error, which std puts after it.
#[derive(Clone, Copy)]
pub struct Reason(pub io::Error);

impl Display for Reason {
    fn fmt<W: fmt::Write>(&self, f: &mut fmt::Formatter<W>) -> fmt::Result {
        let error = self.0;
        let mut text = Cursor::new([0u8; 256]);
        // What does not fit is left out.
        let _ = write!(text, "{error}");
        let length = text.position() as usize;
        let text = text.into_inner();
        let Ok(text) = from_utf8(text.get(..length).unwrap_or(&[])) else {
            return Ok(());
        };
        f.write_str(
            text.split_once(" (os error ")
                .map_or(text, |(reason, _)| reason),
        )
    }
}

// Writes the name of what failed, which need not be text, and the reason to `errors`, which is standard error. A failure to write there
// cannot be told.
pub fn tell_failure(errors: &impl Print, name: &[u8], error: io::Error) {
    let reason = Reason(error);
    let _ = errors.write_all(name);
    let _ = println!(errors; ": {reason}");
}
