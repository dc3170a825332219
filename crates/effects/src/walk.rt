// The walk over the effect of a request.
ghost use Rattle.std.specs.Prelude.{◌≡◌};
ghost use Rattle.effects.specs.Walk.{walk_at};

use lights::walk::{LampWalk, walk_end};

// What follows the current request.
#[derive(Clone, Copy)]
pub enum Rest {
    // Nothing.
    Ended,
    // The request of the frame, with its whole PData. It is executed first, and alone.
    Whole,
    // The entries of a list.
    Entries,
}

// A request to execute: that of the frame, or an entry of a list.
#[derive(Clone, Copy)]
pub struct Task {
    pub pnum: u8,
    pub pcmd: u8,
    // Whether its HWPID is accepted. If not, it changes nothing.
    pub accepted: bool,
    // Whether the answer has tested it. An entry of a list has no answer.
    pub tested: bool,
    // Its PData is from start to end.
    pub start: usize,
    pub end: usize,
    // What follows it.
    pub rest: Rest,
}

// Where a walk stands.
#[derive(Clone, Copy)]
pub struct Walk {
    pub rest: Rest,
    // The end of the current request, which is the place of the next entry.
    pub next: usize,
    // What remains of the current request.
    pub lamps: LampWalk,
}

// The walk at the end of a request: nothing remains of it.
pub fn walk_at(rest: Rest, next: usize) -> Walk
    ensures { result ≡ walk_at rest next }
{
    Walk {
        rest,
        next,
        lamps: walk_end(next),
    }
}
