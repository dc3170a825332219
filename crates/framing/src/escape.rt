// Flag and escape: how a byte of a message is written on the line.
ghost use Rattle.std.specs.Prelude.{◌≡◌, ◌+◌, ◌≤◌, length};
ghost use Rattle.std.proofs.lemmas.List.Edits.{sets};
ghost use Rattle.framing.specs.Framing.{reserved, flipped, longest, escaped, escaped_all};

// Flag Sequence: the first and the last byte of a framed message.
pub const FLAG: u8 = 0x7E;

// Control Escape: the next byte has its escape bit flipped.
pub const ESCAPE: u8 = 0x7D;

const ESCAPE_BIT: u8 = 0x20;

pub fn flipped(byte: u8) -> u8
    ensures { result ≡ flipped byte }
{
    byte ^ ESCAPE_BIT
}

// Whether a byte of a message is written as two bytes.
#[tactic(auto, unfolding(crate::specs::Framing::reserved))]
fn reserved(byte: u8) -> bool
    ensures { result ≡ reserved byte }
{
    byte == FLAG || byte == ESCAPE
}

// How many bytes a byte of a message takes on the line.
#[tactic(auto, unfolding(crate::specs::Framing::escaped))]
pub fn escaped_length(byte: u8) -> usize
    ensures { (result ≡ length (escaped byte)) × (result ≤ 2) }
{
    if reserved(byte) { 2 } else { 1 }
}

// How many bytes the bytes of a message take on the line.
#[tactic(auto, using(crate::proofs::Escapes::escaped_sum), unfolding(crate::specs::Framing::escaped_all))]
pub fn escaped_all_length(message: &[u8]) -> usize
    requires { length message.now ≤ longest }
    ensures { (result ≡ length (escaped_all message.now)) × (result ≤ longest + longest) }
{
    message.iter().map(|byte| escaped_length(*byte)).sum()
}

// Writes one byte of a message at a place and returns the place after it.
#[tactic(auto, unfolding(crate::specs::Framing::escaped))]
pub fn write_escaped(out: &mut [u8], at: usize, byte: u8) -> usize
    requires { at + length (escaped byte) ≤ length out.old }
    ensures { (result ≡ at + length (escaped byte)) × (out.new ≡ sets out.old at (escaped byte)) }
{
    if reserved(byte) {
        out[at] = ESCAPE;
        out[at + 1] = flipped(byte);
        return at + 2;
    }
    out[at] = byte;
    at + 1
}

// Writes all bytes of a message from a place on and returns the place after them.
pub fn write_escaped_all(out: &mut [u8], at: usize, message: &[u8]) -> usize
    requires { at + length (escaped_all message.now) ≤ length out.old }
    ensures { (result ≡ at + length (escaped_all message.now)) × (out.new ≡ sets out.old at (escaped_all message.now)) }
{
    let mut next = at;
    for byte in message {
        next = write_escaped(out, next, *byte);
    }
    next
}
