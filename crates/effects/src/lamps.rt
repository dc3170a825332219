// Runs the rest of a walk. One loop changes the lamps for all entries of a list, because passing all lamps from entry to entry is slow.
ghost use Rattle.std.specs.Prelude.{◌≡◌, ◌≤◌, length};
ghost use Rattle.outcome.specs.Seen.{memories_in, request_seen, SameLent, Sized};
ghost use Rattle.effects.specs.Walk.{whole_task, WalkOk, walk_lamps, walk_memories, EntryAt, TaskAfter};

use crate::run::run_task;
use crate::walk::{Rest, Task, Walk};
use batch::entry::{HEAD_SIZE, at_end, next_entry};
use dpa::frame::Frame;
use dpa::settings::Settings;
use lights::apply::lamp_after;
use lights::lamp::{LAMPS, Lamp};
use lights::walk::next_lamp;
use outcome::hwpid::hwpid_matches;
use outcome::memories::Memories;
use outcome::request::Request;

// The request of the frame.
fn whole_task(header: Frame, end: usize) -> Task
    ensures { result ≡ whole_task header end }
{
    Task {
        pnum: header.pnum,
        pcmd: header.pcmd,
        accepted: true,
        tested: true,
        start: 0,
        end,
        rest: Rest::Ended,
    }
}

// The entry at a place of a list, if there is one. The closing zero ends the list.
#[tactic(auto, using(crate::proofs::Rules::for_entry_task))]
fn entry_task(settings: Settings, bytes: &[u8], next: usize) -> Option<Task>
    requires { next ≤ length bytes.now }
    ensures { EntryAt settings bytes.now next result }
{
    if at_end(&bytes[next..]) {
        return None;
    }
    let Ok(entry) = next_entry(&bytes[next..]) else {
        // A fault. A list is checked before it runs, so there is none; of a broken list nothing more runs.
        return None;
    };
    Some(Task {
        pnum: entry.pnum,
        pcmd: entry.pcmd,
        accepted: hwpid_matches(settings, entry.hwpid),
        tested: false,
        start: next + HEAD_SIZE,
        end: next + entry.len,
        rest: Rest::Entries,
    })
}

// The request that follows, if there is one.
#[tactic(auto, using(crate::proofs::Walks::after_entries))]
fn next_task(settings: Settings, request: Request, walk: Walk) -> Option<Task>
    requires { WalkOk (request_seen request) walk }
    ensures { TaskAfter settings (request_seen request.entry) walk result }
{
    match walk.rest {
        Rest::Ended => None,
        Rest::Whole => Some(whole_task(request.header, request.pdata.len())),
        Rest::Entries => entry_task(settings, request.pdata, walk.next),
    }
}

// The lamps after a walk; the memories change in place. Each turn executes the next request, or changes the next lamp of the current one.
pub fn change_lamps(
    settings: Settings,
    request: Request,
    lamps: [Lamp; LAMPS],
    start: Walk,
    memories: &mut Memories,
) -> [Lamp; LAMPS]
    requires { WalkOk (request_seen request) start × Sized (memories_in memories.old) }
    ensures lamps { result ≡ walk_lamps settings (request_seen request.entry) start lamps }
    ensures memories { memories_in memories.new ≡ walk_memories settings (request_seen request.entry) start (memories_in memories.old) }
    ensures lent { SameLent memories.old memories.new }
{
    let implemented = usize::from(settings.lamp_count);
    let bytes = request.pdata;
    let mut after = lamps;
    let mut walk = start;
    loop {
        if walk.lamps.remaining == 0 {
            let Some(task) = next_task(settings, request, walk) else {
                return after;
            };
            walk = run_task(task, bytes, memories);
        } else {
            let next = walk.next;
            let change = next_lamp(&bytes[..next], walk.lamps);
            walk = Walk {
                lamps: change.rest,
                ..walk
            };
            let i = change.lamp;
            if i < implemented {
                after[i] = lamp_after(walk.lamps.command, after[i], change.power, change.seconds);
            }
        }
    }
}
