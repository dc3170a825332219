// How bytes are written.
use console::print::{Hex, LOWER};

// The first n bytes of a buffer, or all if there are fewer.
pub fn front(bytes: &[u8], n: usize) -> Hex<'_, LOWER> {
    Hex(bytes.get(..n).unwrap_or(bytes))
}
