// The walk over the lamps of a set, raise or lower: from the lowest selected lamp on, each takes the next power entry.
ghost use Rattle.std.specs.Prelude.{◌≡◌, true, ◌≤◌, drop};
ghost use Rattle.lights.specs.Lights.{command_pcmd, changes_lamps, lights_request};
ghost use Rattle.lights.specs.Remaining.{walk_end, walk_start, Remaining, LampStep};

use crate::apply::{Command, command_of, lamp_after};
use crate::bitmap::{lowest_lamp, mask_of, without_lowest};
use crate::lamp::{LAMPS, Lamp};
use crate::power::{BITMAP_SIZE, valid_power_entry_at};
use dpa::settings::Settings;

// What remains of a request.
#[derive(Clone, Copy)]
pub struct LampWalk {
    pub command: Command,
    // The mask of the lamps that are still to be changed.
    pub remaining: u32,
    // The place of the next power entry.
    pub at: usize,
}

// The lowest remaining lamp with its change, and the walk after it.
#[derive(Clone, Copy)]
pub struct NextLamp {
    pub lamp: usize,
    pub power: u8,
    pub seconds: u16,
    pub rest: LampWalk,
}

// The walk at the end of a request: nothing remains.
pub fn walk_end(end: usize) -> LampWalk
    ensures { result ≡ walk_end end }
{
    LampWalk {
        command: Command::Set,
        remaining: 0,
        at: end,
    }
}

// The walk at the start of a request that changes lamps. Its PData is from start to the end of src.
#[tactic(auto, using(crate::proofs::Rules::for_walk_start))]
pub fn walk_start(pcmd: u8, src: &[u8], start: usize) -> LampWalk
    requires { changes_lamps pcmd (drop start src.now) ≡ true }
    ensures { result ≡ walk_start pcmd src.now start }
{
    LampWalk {
        command: command_of(pcmd),
        remaining: mask_of(&src[start..]),
        at: start + BITMAP_SIZE,
    }
}

// The lowest remaining lamp takes the next power entry. It was tested, so that no power entry is tested again.
#[tactic(auto, using(crate::proofs::RemainingLamps::next_valid))]
pub fn next_lamp(src: &[u8], walk: LampWalk) -> NextLamp
    requires { Remaining src.now walk × (walk.remaining ≡ 0 → ⊥) }
    ensures { LampStep src.now walk result }
{
    let entry = valid_power_entry_at(src, walk.at);
    NextLamp {
        lamp: lowest_lamp(walk.remaining),
        power: entry.power,
        seconds: entry.seconds,
        rest: LampWalk {
            remaining: without_lowest(walk.remaining),
            at: walk.at + entry.size,
            ..walk
        },
    }
}

// The lamps after a request whose power entries were tested; only set, raise and lower change lamps. One place of the array is replaced
// for each selected lamp.
#[tactic(auto, using(crate::proofs::Rules::for_lamps_after), unfolding(crate::specs::Lights::changes_lamps))]
pub fn lamps_after(settings: Settings, pcmd: u8, src: &[u8], lamps: [Lamp; LAMPS]) -> [Lamp; LAMPS]
    requires { pcmd ≤ command_pcmd Command.Lower → changes_lamps pcmd src.now ≡ true }
    ensures { result ≡ (lights_request settings pcmd src.now lamps).after }
{
    if Command::try_from(pcmd).is_err() {
        return lamps;
    }
    let implemented = usize::from(settings.lamp_count);
    let mut after = lamps;
    let mut walk = walk_start(pcmd, src, 0);
    while walk.remaining != 0 {
        let change = next_lamp(src, walk);
        walk = change.rest;
        let i = change.lamp;
        if i < implemented {
            after[i] = lamp_after(walk.command, after[i], change.power, change.seconds);
        }
    }
    after
}
