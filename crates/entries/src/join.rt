// Joining steps into entries.
ghost use Rattle.std.specs.Prelude.{◌≡◌, ◌≤◌, ◌<◌};
ghost use Rattle.book.specs.Steps.{steps_of};
ghost use Rattle.entries.specs.Join.{follows};
ghost use Rattle.entries.specs.EntrySize.{one_step_max, EntryLimit, step_size, first_size, joined_size, FirstEntry};

use book::step::{Step, Steps};
use lights::power::BITMAP_SIZE;
use step::kind::is_lamp;

// The size of the address in front of the values: RAM and EEPROM have one-byte addresses.
const ADDRESS_LENGTH: usize = 1;

// Whether a step may follow `before`, the last step of an entry.
#[tactic(auto, unfolding(crate::specs::Join::follows))]
fn may_follow(before: Step, step: Step) -> bool
    ensures { result ≡ follows before step }
{
    if step.kind != before.kind {
        return false;
    }
    if is_lamp(before.kind) {
        before.target < step.target
    } else {
        usize::from(step.target) == usize::from(before.target) + 1
    }
}

// The PData size of a step in an entry of this kind: a power byte, and a time byte if the step has a time; or a value byte.
#[tactic(auto, unfolding(crate::specs::EntrySize::step_size, crate::specs::EntrySize::power_size))]
fn step_size(kind: u8, step: Step) -> usize
    ensures { (result ≡ step_size kind step) × (result ≤ 2) }
{
    if is_lamp(kind) {
        if step.time == 0 { 1 } else { 2 }
    } else {
        1
    }
}

// The PData size of an entry of one step.
#[tactic(auto, unfolding(crate::specs::EntrySize::first_size))]
fn first_size(step: Step) -> usize
    ensures { (result ≡ first_size step) × (result ≤ one_step_max) }
{
    let kind = step.kind;
    if is_lamp(kind) {
        step_size(kind, step) + BITMAP_SIZE
    } else {
        step_size(kind, step) + ADDRESS_LENGTH
    }
}

// The PData size of an entry of this kind and `size` bytes after a step joins it, if that step joins. Its last step is `before`.
#[tactic(auto, unfolding(crate::specs::EntrySize::joined_size))]
fn joined_size(before: Step, step: Step, kind: u8, size: usize, limit: usize) -> Option<usize>
    requires { (size ≤ limit) × EntryLimit limit }
    ensures { result ≡ joined_size limit before step kind size }
{
    let joined = step_size(kind, step) + size;
    if limit < joined {
        return None;
    }
    if may_follow(before, step) {
        Some(joined)
    } else {
        None
    }
}

// The number of steps of an entry, and its PData size: two bytes for each entry of a scene.
#[derive(Clone, Copy)]
pub struct EntrySpan {
    pub steps: u8,
    pub size: u8,
}

// The first entry of steps, with at most `limit` bytes of PData. That there is a step is a `requires`, here and where it is written: a type
// for it would repeat the methods of `Steps`.
pub fn first_entry(steps: Steps, limit: usize) -> EntrySpan
    requires { (0 < steps.count) × EntryLimit limit }
    ensures { FirstEntry limit (steps_of steps.entry) result.steps result.size }
{
    let first = steps.step(0);
    let mut size = first_size(first);
    for i in 1..steps.count {
        let before = steps.step(i - 1);
        let Some(joined) = joined_size(before, steps.step(i), first.kind, size, limit) else {
            return EntrySpan {
                steps: i as u8,
                size: size as u8,
            };
        };
        size = joined;
    }
    EntrySpan {
        steps: steps.count as u8,
        size: size as u8,
    }
}
