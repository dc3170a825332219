// Writing the PData of a lamp entry: bitmap, then power and time bytes.
ghost use Rattle.std.specs.Prelude.{◌≡◌, ◌^◌, ◌≤◌, ◌<◌, length};
ghost use Rattle.dpa.specs.Settings.{max_lamps};
ghost use Rattle.lights.specs.Bits.{bitmap_size};
ghost use Rattle.lights.specs.Lamp.{max_level};
ghost use Rattle.book.specs.Steps.{steps_of};
ghost use Rattle.entries.specs.Entry.{power_bytes, powers_bytes, bitmap_of, bitmap_bytes};
ghost use Rattle.entries.specs.Writing.{LampStepsInRange, lamp_bit_bound};
ghost use Rattle.entries.specs.Writer.{HasRoom, Writes};

use crate::write::Writer;
use book::step::{Step, Steps};
use lights::power::{BIT_7, BITMAP_SIZE};

// Writes the power byte of a step, and its time byte if it has one.
#[tactic(auto, unfolding(crate::specs::Entry::power_bytes))]
fn write_power(step: Step, out: &mut Writer)
    requires { (step.value ≤ max_level) × HasRoom out.old (length (power_bytes step)) }
    ensures { Writes out.old out.new (power_bytes step) }
{
    if step.time == 0 {
        out.write_byte(step.value);
        return;
    }
    out.write_bytes(&[step.value + BIT_7, step.time]);
}

// Writes the power and time bytes of steps.
pub fn write_powers(steps: Steps, out: &mut Writer)
    requires { HasRoom out.old (length (powers_bytes (steps_of steps))) × LampStepsInRange steps.body.now steps.count }
    ensures { Writes out.old out.new (powers_bytes (steps_of steps.entry)) }
{
    for step in steps {
        write_power(step, out);
    }
}

// The bit of a lamp in the bitmap.
fn lamp_bit(lamp: u8) -> u64
    requires { lamp < max_lamps }
    ensures { (result ≡ 2 ^ lamp) × (result ≤ lamp_bit_bound) }
{
    1u64 << lamp
}

// The bitmap of lamp steps. It is added up in 64 bits, so that no sum of lamp bits overflows; the steps of an entry have different
// lamps, so that theirs fits the four bytes that are written.
pub fn bitmap_of(steps: Steps) -> u64
    requires { LampStepsInRange steps.body.now steps.count }
    ensures { result ≡ bitmap_of (steps_of steps.entry) }
{
    let mut bitmap: u64 = 0;
    for step in steps {
        bitmap += lamp_bit(step.target);
    }
    bitmap
}

// Writes the four low bytes of a bitmap.
pub fn write_bitmap(bitmap: u64, out: &mut Writer)
    requires { HasRoom out.old bitmap_size }
    ensures { Writes out.old out.new (bitmap_bytes bitmap) }
{
    out.write_bytes(&bitmap.to_le_bytes()[..BITMAP_SIZE]);
}
