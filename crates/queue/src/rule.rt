// The rule of a queue, and the tests of a call.
ghost use Rattle.std.specs.Prelude.{◌≡◌, eqb};
ghost use Rattle.queue.specs.Queue.{queue_size, queue_ok, network_in, clock_ok, due};

use crate::places::places_ok;
use crate::record::{QUEUE_SIZE, SendQueue};
use timing::slot::{Network, WAIT_MAX};

// The latest time that can be given, in ms: 2^40.
pub const TIME_MAX: u64 = 0x100_0000_0000;

impl SendQueue {
    // Returns whether the record follows the rule.
    #[tactic(auto, unfolding(crate::specs::Queue::queue_ok))]
    pub fn is_sound(&self) -> bool
        ensures { result ≡ queue_ok self.now }
    {
        if self.network > Network::StdLp as u8 {
            return false;
        }
        let count = usize::from(self.count);
        if QUEUE_SIZE < count {
            return false;
        }
        if !places_ok(count, &self.places) {
            return false;
        }
        if TIME_MAX < self.last {
            return false;
        }
        self.next <= self.last + WAIT_MAX
    }

    // The network type; any other byte than that of STD+LP is taken as STD.
    pub fn network_type(&self) -> Network
        ensures { result ≡ network_in self.now }
    {
        Network::from(self.network == Network::StdLp as u8)
    }

    // Returns whether there is no free place.
    pub fn is_full(&self) -> bool
        ensures { result ≡ eqb self.now.count queue_size }
    {
        usize::from(self.count) == QUEUE_SIZE
    }

    // Returns whether a time is neither before the last one nor too late.
    #[tactic(auto, unfolding(crate::specs::Queue::clock_ok))]
    pub fn clock_ok(&self, time: u64) -> bool
        ensures { result ≡ clock_ok self.now.last time }
    {
        if time < self.last {
            return false;
        }
        time <= TIME_MAX
    }

    // Returns whether a release releases: a request waits, and the time is not before the next one.
    #[tactic(auto, unfolding(crate::specs::Queue::due))]
    pub fn is_due(&self, time: u64) -> bool
        ensures { result ≡ due self.now.count self.now.next time }
    {
        if self.count == 0 {
            return false;
        }
        self.next <= time
    }
}
