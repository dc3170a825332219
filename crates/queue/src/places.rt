// The places of a queue, and their rule.
ghost use Rattle.std.specs.Prelude.{◌≡◌, true, ◌++◌, ◌∷◌, [], length, drop};
ghost use Rattle.dpa.specs.Frame.{frame_fits};
ghost use Rattle.queue.specs.Queue.{outgoing, placed, empty_place, all_zero, place_ok, places_ok};

use crate::record::{QUEUE_SIZE, Waiting};
use dpa::copy::copy;
use dpa::frame::Frame;
use dpa::settings::address_ok;

// A request in its place.
#[tactic(auto, using(dpa::proofs::Headers::fits_sizes))]
pub fn placed(frame: &[u8], hops: u8, response_hops: u8, delay: u16) -> Waiting
    requires { frame_fits (length frame.now) ≡ true }
    ensures { result ≡ placed (outgoing frame.now hops response_hops delay) }
{
    let mut padded = [0u8; Frame::LONGEST];
    copy(frame, &mut padded);
    Waiting {
        delay,
        length: frame.len() as u8,
        hops,
        response_hops,
        frame: padded,
    }
}

pub fn empty_place() -> Waiting
    ensures { result ≡ empty_place }
{
    Waiting {
        delay: 0,
        length: 0,
        hops: 0,
        response_hops: 0,
        frame: [0; Frame::LONGEST],
    }
}

// Returns whether all bytes are 0. There is no early exit, so that the loop can be vectorized.
fn all_zero(bytes: &[u8]) -> bool
    ensures { result ≡ all_zero bytes.now }
{
    bytes.iter().fold(true, |ok, byte| ok & (*byte == 0))
}

// Returns whether place k follows the rule: below the count for one with a request, otherwise for one without, which is all zero.
fn place_ok(count: usize, k: usize, waiting: &Waiting) -> bool
    ensures { result ≡ place_ok count k waiting.now }
{
    let size = usize::from(waiting.length);
    let zeros = all_zero(&waiting.frame[size.min(Frame::LONGEST)..]);
    if k < count {
        let header = Frame::read(&waiting.frame);
        return Frame::fits(size) & address_ok(header.nadr) & zeros;
    }
    (size == 0) & (waiting.delay == 0) & (waiting.hops == 0) & (waiting.response_hops == 0) & zeros
}

// Returns whether each place follows the rule.
pub fn places_ok(count: usize, places: &[Waiting; QUEUE_SIZE]) -> bool
    ensures { result ≡ places_ok count places.now }
{
    places
        .iter()
        .enumerate()
        .all(|(k, place)| place_ok(count, k, place))
}

// The places without the first: the others move down, and an empty place follows.
pub fn moved_down(places: [Waiting; QUEUE_SIZE]) -> [Waiting; QUEUE_SIZE]
    ensures { result ≡ drop 1 places ++ (empty_place ∷ []) }
{
    let mut moved = places;
    moved.copy_within(1.., 0);
    moved[QUEUE_SIZE - 1] = empty_place();
    moved
}
