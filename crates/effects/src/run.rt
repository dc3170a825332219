// Executes a request without an answer. A memory changes at once; a request to the lights returns the walk over its lamps.
ghost use Rattle.std.specs.Prelude.{◌≡◌};
ghost use Rattle.dpa.specs.Lists.{Bytes};
ghost use Rattle.dpa.specs.Pnum.{lights_pnum};
ghost use Rattle.outcome.specs.Seen.{memories_in, SameLent, Sized};
ghost use Rattle.effects.specs.Walk.{TaskOk, task_memories, lights_walk, task_walk};

use crate::walk::{Task, Walk, walk_at};
use dpa::pnum;
use lights::apply::Command;
use lights::request::changes_lamps;
use lights::walk::walk_start;
use memory::block::Memory;
use memory::request::change;
use outcome::memories::Memories;

// The walk of a request to the lights. Power entries that the answer has tested are not tested again.
#[tactic(auto, using(crate::proofs::Tasks::tested_changes, crate::proofs::Tasks::task_data_lem), unfolding(crate::specs::Walk::lights_walk, lights::specs::Lights::command_read))]
fn lights_walk(task: Task, bytes: &[u8]) -> Walk
    requires { TaskOk bytes.now task × (task.pnum ≡ lights_pnum) }
    ensures { result ≡ lights_walk bytes.now task }
{
    let changes = if task.tested {
        Command::try_from(task.pcmd).is_ok()
    } else {
        changes_lamps(task.pcmd, &bytes[task.start..task.end])
    };
    if !changes {
        return walk_at(task.rest, task.end);
    }
    Walk {
        rest: task.rest,
        next: task.end,
        lamps: walk_start(task.pcmd, &bytes[..task.end], task.start),
    }
}

// Executes a request, by its PNUM. Any PNUM other than those of the peripherals changes nothing.
#[tactic(auto, unfolding(crate::specs::Walk::task_walk, crate::specs::Walk::task_memories, outcome::specs::Seen::peripheral_memories))]
pub fn run_task(task: Task, bytes: &[u8], memories: &mut Memories) -> Walk
    requires { TaskOk bytes.now task × Sized (memories_in memories.old) }
    ensures walk { result ≡ task_walk bytes.now task }
    ensures memories { memories_in memories.new ≡ task_memories bytes.now task (memories_in memories.old) }
    ensures lent { SameLent memories.old memories.new }
    ensures bytes { Bytes bytes.now }
{
    let done = walk_at(task.rest, task.end);
    if !task.accepted {
        return done;
    }
    let pcmd = task.pcmd;
    let pdata = &bytes[task.start..task.end];
    match task.pnum {
        pnum::LIGHTS => lights_walk(task, bytes),
        pnum::EEPROM => {
            change(Memory::Eeprom, memories.eeprom, pcmd, pdata);
            done
        }
        pnum::EXTERNAL => {
            change(Memory::External, memories.external, pcmd, pdata);
            done
        }
        pnum::RAM => {
            change(Memory::Ram, memories.ram, pcmd, pdata);
            done
        }
        _ => done,
    }
}
