// The power entries of a request: a power byte each, followed by a time byte if bit 7 is set.
ghost use Rattle.std.specs.Prelude.{◌≡◌, true, ◌≤◌, ◌<◌, length, drop};
ghost use Rattle.lights.specs.Bits.{bitmap_size};
ghost use Rattle.lights.specs.Lights.{bit7, power_ok, time_ok, seconds_of, first_power_entry, is_valid, power_entries, are_valid};

use crate::lamp::MAX_LEVEL;

// The size of the bitmap at the front of PData; the power entries follow it.
pub const BITMAP_SIZE: usize = 4;

// The power that keeps a lamp's level.
pub const KEEP: u8 = 127;

// In a power byte: a time byte follows. In a time byte: the low bits are seconds, not minutes.
pub const BIT_7: u8 = 0x80;

// A valid power entry: what it changes, and its size in bytes. The seconds are 0 exactly if it has no time byte; they are no Option, because
// the definitions (`lamp_after`, `with_timer`) have a number.
#[derive(Clone, Copy)]
pub struct PowerEntry {
    pub power: u8,
    pub seconds: u16,
    pub size: usize,
}

// Whether the low seven bits of a power byte are a level or keep. Adding one, modulo 128, takes keep to 0 and the levels to 1 to 101, so
// that one comparison is enough.
#[tactic(auto, using(crate::proofs::Powers::one_comparison))]
fn power_ok(power: u8) -> bool
    requires { power < bit7 }
    ensures { result ≡ power_ok power }
{
    (power + 1) % BIT_7 <= MAX_LEVEL + 1
}

#[tactic(auto, unfolding(crate::specs::Lights::time_ok))]
pub fn time_ok(time: u8) -> bool
    ensures { result ≡ time_ok time }
{
    time % BIT_7 != 0
}

// Seconds of a time byte: minutes if bit 7 is clear, else seconds.
#[tactic(auto, unfolding(crate::specs::Lights::seconds_of))]
fn seconds_of(time: u8) -> u16
    ensures { result ≡ seconds_of time }
{
    let count = u16::from(time % BIT_7);
    if time < BIT_7 { 60 * count } else { count }
}

// Parses the power entry at an index.
fn power_entry_at(src: &[u8], at: usize) -> Option<PowerEntry>
    ensures { result ≡ first_power_entry (drop at src.now) }
{
    let byte = *src.get(at)?;
    if !power_ok(byte % BIT_7) {
        return None;
    }
    if BIT_7 <= byte && !time_ok(*src.get(at + 1)?) {
        return None;
    }
    Some(valid_power_entry_at(src, at))
}

// Whether the bitmap is followed by exactly n valid power entries and nothing else.
pub fn power_entries_ok(src: &[u8], n: usize) -> bool
    requires { bitmap_size ≤ length src.now }
    ensures { result ≡ are_valid (power_entries n (drop bitmap_size src.now)) }
{
    let mut at = BITMAP_SIZE;
    for _ in 0..n {
        let Some(entry) = power_entry_at(src, at) else {
            return false;
        };
        at += entry.size;
    }
    at == src.len()
}

// The power entry at an index where one is known to be valid: nothing is tested again.
pub fn valid_power_entry_at(src: &[u8], at: usize) -> PowerEntry
    requires { is_valid (first_power_entry (drop at src.now)) ≡ true }
    ensures { first_power_entry (drop at src.now) ≡ Some result }
{
    let byte = src[at];
    let power = byte % BIT_7;
    if byte < BIT_7 {
        return PowerEntry {
            power,
            seconds: 0,
            size: 1,
        };
    }
    PowerEntry {
        power,
        seconds: seconds_of(src[at + 1]),
        size: 2,
    }
}
