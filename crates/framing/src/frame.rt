// Framing: a message between two flags, with its check byte.
ghost use Rattle.std.specs.Prelude.{◌≡◌, ◌≤◌, leb, length};
ghost use Rattle.dpa.specs.Answer.{length_answer, length_result};
ghost use Rattle.dpa.specs.Lists.{overwrite_front};
ghost use Rattle.crc.specs.CheckByte.{check_byte};
ghost use Rattle.framing.specs.Framing.{longest, framed, LongestFramed, frame_of};

use crate::escape::{FLAG, escaped_all_length, escaped_length, write_escaped, write_escaped_all};
use crc::check_byte::check_byte;
use dpa::refusal::Refusal;

// The shortest and the longest message, in bytes without the check byte.
pub const SHORTEST: usize = 6;

pub const LONGEST: usize = 64;

// The longest framed message: two flags, and twice the message and its check byte.
pub const LONGEST_FRAMED: usize = 2 * LONGEST + 4;

// Whether a framed message fits. LONGEST_FRAMED bytes are enough for any. Escapes are counted only if the room is not enough for every message
// of this length.
#[tactic(auto, using(crate::proofs::Escapes::framed_length, crate::proofs::Escapes::framed_max, crate::proofs::Escapes::longest_framed))]
fn fits(message: &[u8], check: u8, room: usize) -> bool
    requires { (length message.now ≤ longest) × (check ≡ check_byte message.now) }
    ensures { (result ≡ leb (length (framed message.now)) room) × LongestFramed LONGEST_FRAMED }
{
    if 2 * message.len() + 4 <= room {
        return true;
    }
    escaped_all_length(message) + escaped_length(check) + 2 <= room
}

// Writes a framed message to the front of a buffer and returns its length.
#[tactic(auto, using(crate::proofs::Escapes::framed_length, crate::proofs::Escapes::framed_written))]
fn write_framed(message: &[u8], check: u8, out: &mut [u8]) -> usize
    requires { (check ≡ check_byte message.now) × (length (framed message.now) ≤ length out.old) }
    ensures { (result ≡ length (framed message.now)) × (out.new ≡ overwrite_front (framed message.now) out.old) }
{
    out[0] = FLAG;
    let after_message = write_escaped_all(out, 1, message);
    let last = write_escaped(out, after_message, check);
    out[last] = FLAG;
    last + 1
}

// Frames a message into a buffer, whose later bytes stay. The room is tested with all escapes before anything is written.
#[tactic(auto, unfolding(crate::specs::Framing::frame_of))]
pub fn frame(message: &[u8], out: &mut [u8]) -> Result<usize, Refusal>
    ensures { length_result (length_answer result) out.new ≡ frame_of message.now out.old }
{
    if message.len() < SHORTEST || LONGEST < message.len() {
        return Err(Refusal::Frame);
    }
    let check = check_byte(message);
    if !fits(message, check, out.len()) {
        return Err(Refusal::Framed);
    }
    Ok(write_framed(message, check, out))
}
