// Numbers in the arguments.
ghost use Rattle.std.specs.Prelude.{◌<◌, ◌≤◌, IfSome, length};

use std::rt::Env;

// Reads a number of one or more digits, up to `most`. The division keeps the next value from overflowing. `from_str_radix` would take a
// sign too.
fn digits(text: &[u8], radix: u32, most: usize) -> Option<usize>
    requires { (2 ≤ radix) × (radix ≤ 36) × (radix ≤ most) }
    ensures { IfSome result (λ value. value ≤ most) }
{
    if text.is_empty() {
        return None;
    }
    let base = radix as usize;
    let mut value = 0;
    for &byte in text {
        let digit = char::from(byte).to_digit(radix)? as usize;
        if (most - digit) / base < value {
            return None;
        }
        value = value * base + digit;
    }
    Some(value)
}

// A longer argument is too long.
pub const LONGEST_ARGUMENT: usize = 4096;

// Puts argument i at the start of the buffer, and returns it there: an empty text if it is missing or does not fit.
pub fn argument_text<'a>(rt: &impl Env, i: usize, text: &'a mut [u8; LONGEST_ARGUMENT]) -> &'a [u8]
    ensures { length result.now ≤ LONGEST_ARGUMENT }
{
    let length = rt.arg(i, text).unwrap_or(0);
    &text[..length]
}

// Reads the number that is argument i: decimal, or hexadecimal after `0x`, up to `most`.
pub fn number_argument(rt: &impl Env, i: usize, most: usize) -> Option<usize>
    requires { 16 ≤ most }
    ensures { IfSome result (λ value. value ≤ most) }
{
    let mut text = [0u8; LONGEST_ARGUMENT];
    match argument_text(rt, i, &mut text) {
        [b'0', b'x', hex @ ..] => digits(hex, 16, most),
        decimal => digits(decimal, 10, most),
    }
}
