// What a start, a send, a release and a release that is too early leave; and what a release hands out.
ghost use Rattle.std.specs.Prelude.{◌≡◌, true, ◌<◌, ◌≤◌, ◌+◌, length, get_or, set};
ghost use Rattle.dpa.specs.Answer.{result_in_buffer};
ghost use Rattle.dpa.specs.Frame.{longest_response};
ghost use Rattle.timing.specs.Slot.{wait_max};
ghost use Rattle.queue.specs.Queue.{wait_after, confirmation_of, queue_size, request_in, empty_place, time_max, WaitingRule, queue_ok, new_queue, queue_from, with_time, without_oldest};

use crate::places::{empty_place, moved_down};
use crate::record::{QUEUE_SIZE, SendQueue, Waiting};
use dpa::frame::Frame;
use timing::confirm::confirm;
use timing::slot::{Network, earliest_send};

// An empty queue.
#[tactic(auto, unfolding(crate::specs::Queue::new_queue, timing::specs::Slot::network_of))]
pub fn new_queue(lp: bool, dpa_value: u8) -> SendQueue
    ensures { result ≡ new_queue lp dpa_value }
{
    SendQueue {
        last: 0,
        next: 0,
        network: Network::from(lp) as u8,
        dpa_value,
        count: 0,
        places: [empty_place(); QUEUE_SIZE],
    }
}

// Time from the release of a request to the next one: the slot of the longest response is kept free for its answer.
fn wait_after(network: Network, waiting: &Waiting) -> u32
    requires { WaitingRule waiting.now }
    ensures { (result ≡ wait_after network (request_in waiting.now)) × (result ≤ wait_max) }
{
    let header = Frame::read(&waiting.frame);
    let size = usize::from(waiting.length) - Frame::HEADER;
    let wait = earliest_send(
        waiting.hops,
        size,
        waiting.delay,
        waiting.response_hops,
        Frame::PDATA_MAX,
        network,
        header.nadr == Frame::BROADCAST,
    );
    // Both lengths fit a frame.
    wait.unwrap()
}

// Writes the confirmation of a request that waits and returns its length.
pub fn confirm_waiting(network: Network, dpa_value: u8, waiting: &Waiting, out: &mut [u8]) -> usize
    requires { WaitingRule waiting.now × (longest_response ≤ length out.old) }
    ensures { record { refusal = 0; length = result; out = out.new } ≡ result_in_buffer 0 (confirmation_of network dpa_value (request_in waiting.now)) out.old }
{
    let frame = &waiting.frame[..usize::from(waiting.length)];
    let Waiting {
        hops,
        response_hops,
        ..
    } = *waiting;
    // The frame has a valid length, and the buffer is long enough.
    confirm(frame, dpa_value, hops, response_hops, network, out).unwrap()
}

impl SendQueue {
    // The queue after a call of which only the time is recorded.
    pub fn with_time(self, time: u64) -> SendQueue
        ensures { result ≡ with_time self time }
    {
        SendQueue { last: time, ..self }
    }

    // The queue with one more request.
    pub fn with_request(self, waiting: Waiting, time: u64) -> SendQueue
        requires { self.count < queue_size }
        ensures { result ≡ queue_from self time self.next (self.count + 1) (set self.places self.count waiting) }
    {
        let mut places = self.places;
        places[usize::from(self.count)] = waiting;
        SendQueue {
            last: time,
            count: self.count + 1,
            places,
            ..self
        }
    }

    // The request that is released next.
    pub fn oldest(&self) -> &Waiting
        ensures { result.now ≡ get_or self.now.places 0 empty_place }
    {
        &self.places[0]
    }

    // The queue after the release of its oldest request.
    #[tactic(auto, using(crate::proofs::Rules::queue_facts))]
    pub fn without_oldest(self, time: u64) -> SendQueue
        requires { (queue_ok self ≡ true) × (0 < self.count) × (time ≤ time_max) }
        ensures { result ≡ without_oldest self time }
    {
        let wait = wait_after(self.network_type(), self.oldest());
        SendQueue {
            last: time,
            next: time + u64::from(wait),
            count: self.count - 1,
            places: moved_down(self.places),
            ..self
        }
    }
}
