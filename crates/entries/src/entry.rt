// Writing the entry of joined steps.
ghost use Rattle.std.specs.Prelude.{◌≡◌, ◌+◌, ◌≤◌, ◌<◌, length};
ghost use Rattle.dpa.specs.Frame.{pdata_max};
ghost use Rattle.batch.specs.Batch.{entry_bytes, entry_head_size};
ghost use Rattle.book.specs.Steps.{steps_of};
ghost use Rattle.entries.specs.Entry.{values, group_data, pnum_of, pcmd_of, joined_entry};
ghost use Rattle.entries.specs.Writing.{EntryWritable, entry_head_bytes};
ghost use Rattle.entries.specs.Writer.{HasRoom, Writes};

use crate::power::{bitmap_of, write_bitmap, write_powers};
use crate::write::Writer;
use batch::entry::HEAD_SIZE;
use book::step::Steps;
use dpa::pnum;
use memory::block::Memory;
use step::kind::{WRITE_RAM, is_lamp};

// Writes the values of steps.
fn write_values(steps: Steps, out: &mut Writer)
    requires { HasRoom out.old steps.count }
    ensures { Writes out.old out.new (values (steps_of steps.entry)) }
{
    for step in steps {
        out.write_byte(step.value);
    }
}

// What an entry of a step kind goes to.
#[derive(Clone, Copy)]
struct Target {
    pnum: u8,
    pcmd: u8,
}

// The peripheral and the command of a step kind: the lights commands have the numbers of the kinds. It goes by the numbers, since a
// second call of `Kind::try_from`, beside that of `step_fault`, makes compiling a scene 6 % slower.
#[tactic(auto, unfolding(crate::specs::Entry::pnum_of, crate::specs::Entry::pcmd_of))]
fn target_of(kind: u8) -> Target
    ensures { (result.pnum ≡ pnum_of kind) × (result.pcmd ≡ pcmd_of kind) }
{
    if is_lamp(kind) {
        return Target {
            pnum: pnum::LIGHTS,
            pcmd: kind,
        };
    }
    if kind == WRITE_RAM {
        Target {
            pnum: pnum::RAM,
            pcmd: Memory::Ram.write_command(),
        }
    } else {
        Target {
            pnum: pnum::EEPROM,
            pcmd: Memory::Eeprom.write_command(),
        }
    }
}

// Writes the bytes of an entry before its PData.
fn write_head(kind: u8, hwpid: u16, size: usize, out: &mut Writer)
    requires { HasRoom out.old entry_head_size × (size ≤ pdata_max) }
    ensures { Writes out.old out.new (entry_head_bytes kind hwpid size) }
{
    let target = target_of(kind);
    let [low, high] = hwpid.to_le_bytes();
    out.write_bytes(&[
        (HEAD_SIZE + size) as u8,
        target.pnum,
        target.pcmd,
        low,
        high,
    ]);
}

// Writes the PData of an entry of joined steps.
fn write_pdata(steps: Steps, out: &mut Writer)
    requires { (0 < steps.count) × HasRoom out.old (length (group_data (steps_of steps))) × EntryWritable steps.body.now steps.count }
    ensures { Writes out.old out.new (group_data (steps_of steps.entry)) }
{
    let first = steps.step(0);
    if is_lamp(first.kind) {
        write_bitmap(bitmap_of(steps), out);
        write_powers(steps, out);
        return;
    }
    out.write_byte(first.target);
    write_values(steps, out);
}

// Writes an entry of joined steps, which has `size` bytes of PData.
pub fn write_entry(steps: Steps, hwpid: u16, size: usize, out: &mut Writer)
    requires { (0 < steps.count) × (size ≤ pdata_max) × (size ≡ length (group_data (steps_of steps)))
        × HasRoom out.old (entry_head_size + size) × EntryWritable steps.body.now steps.count }
    ensures { Writes out.old out.new (entry_bytes (joined_entry hwpid (steps_of steps.entry))) }
{
    let first = steps.step(0);
    write_head(first.kind, hwpid, size, out);
    write_pdata(steps, out);
}
