// Reading the book.
ghost use Rattle.std.specs.Prelude.{◌≡◌, ◌<◌, ◌≤◌, MatchResult, IfOk, length};
ghost use Rattle.std.specs.Io.KnownBytes.{Consumes, IsAtEnd};

use crate::failure::tell_failure;
use crate::number::{LONGEST_ARGUMENT, argument_text};
use std::io::Read;
use std::rt::{Env, Files};
use std::str::from_utf8;
use std::{fs, io};

// What a read that fails leaves: the bytes that came before, and the reason.
#[derive(Drop)]
pub struct Cut<'a> {
    pub read: &'a [u8],
    pub error: io::Error,
}

impl From<Cut<'_>> for io::Error {
    ghost from_gives = { λ cut error. error ≡ cut.error };

    fn from(cut: Cut<'_>) -> io::Error {
        cut.error
    }
}

// Reads until the input ends or the buffer is full. The result is the part of the buffer that was read.
pub fn read_full<'a, R: Read>(file: &mut R, book: &'a mut [u8]) -> Result<&'a [u8], Cut<'a>>
    ensures bound { MatchResult result (λ read. length read.now ≤ length book.old) (λ cut. length cut.read.now ≤ length book.old) }
    ensures bytes { MatchResult result (λ read. Consumes (R.remaining file.old) (R.remaining file.new) read.now)
        (λ cut. Consumes (R.remaining file.old) (R.remaining file.new) cut.read.now) }
    ensures whole { IfOk result (λ read. length read.now < length book.old → IsAtEnd (R.remaining file.new)) }
{
    let mut n = 0;
    // `io::copy` would repeat a read that is interrupted, which is a failure here.
    while n < book.len() {
        match file.read(&mut book[n..]) {
            Ok(0) => break,
            Ok(more) => n += more,
            Err(error) => {
                return Err(Cut {
                    read: &book[..n],
                    error,
                });
            }
        }
    }
    Ok(&book[..n])
}

// The system's number of the error that there is no such file.
const NO_SUCH_FILE: i32 = 2;

// A path is UTF-8 for std, which therefore sees no file with another name.
fn open<R: Files>(rt: &R, path: &[u8]) -> io::Result<R::File> {
    let path = from_utf8(path).map_err(|_| io::Error::from_raw_os_error(NO_SUCH_FILE))?;
    fs::open(rt, path)
}

// Standard input has the path `-`.
fn read_path<'a, R: Files + io::Input>(
    rt: &R,
    path: &[u8],
    book: &'a mut [u8],
) -> io::Result<&'a [u8]> {
    let read = match path {
        b"-" => read_full(&mut rt.reader(), book)?,
        _ => read_full(&mut open(rt, path)?, book)?,
    };
    Ok(read)
}

// Where no argument names a file, it is standard input. An argument that does not fit the buffer is read as an empty path.
fn path_of<'a>(
    rt: &impl Env,
    argument: Option<usize>,
    text: &'a mut [u8; LONGEST_ARGUMENT],
) -> &'a [u8] {
    match argument {
        Some(i) => argument_text(rt, i, text),
        None => b"-",
    }
}

fn name_of(path: &[u8]) -> &[u8] {
    match path {
        b"-" => b"standard input",
        _ => path,
    }
}

// Reads the file that an argument names, or standard input. What fails is told to `errors`.
pub fn read_input<'a, R: Env + Files + io::Input>(
    rt: &R,
    errors: &impl Print,
    argument: Option<usize>,
    book: &'a mut [u8],
) -> Option<&'a [u8]> {
    let mut text = [0u8; LONGEST_ARGUMENT];
    let path = path_of(rt, argument, &mut text);
    match read_path(rt, path, book) {
        Ok(read) => Some(read),
        Err(error) => {
            tell_failure(errors, name_of(path), error);
            None
        }
    }
}
