// The frame that is under way in a receiver: how bytes of the line change it, and what a flag makes of it.
ghost use Rattle.std.specs.Prelude.{◌≡◌, ◌≤◌};
ghost use Rattle.framing.specs.Framing.{longest};

use crate::receiver::{
    DropCause, GATEWAY_LIMIT, NODE_LIMIT, PLACES, Phase, ReceiveAnswer, Receiver,
};
use crc::check_byte::check_byte;
use dpa::refusal::Refusal;
use framing::escape::{ESCAPE, FLAG, flipped};
use framing::frame::SHORTEST;

// A receiver whose record follows the rule, with the fields of the record. Bytes and count are no Vec: library crates have no heap.
#[derive(Clone, Copy)]
pub(crate) struct Progress {
    limit: u8,
    phase: Phase,
    count: u8,
    bytes: [u8; PLACES],
    ghost limited: { limit ≤ longest },
}

impl TryFrom<Receiver> for Progress {
    type Error = Refusal;

    ghost use Rattle.std.specs.Prelude.{true, false, MatchResult};
    ghost use Rattle.uart.specs.Receiver.{receiver_ok};
    ghost use Rattle.uart.specs.Progress.{receiver_of};
    ghost use Rattle.dpa.specs.declared.refusal.Refusal.TheVariants.{Node};

    ghost try_from_gives = { λ receiver outcome. MatchResult outcome (λ p. (receiver_ok receiver ≡ true) × (receiver_of p ≡ receiver)) (λ e. (receiver_ok receiver ≡ false) × (e ≡ Node)) };

    #[tactic(auto, using(crate::proofs::Receivers::limit_range), unfolding(crate::specs::Receiver::receiver_ok, crate::specs::Receiver::limit_ok))]
    fn try_from(receiver: Receiver) -> Result<Progress, Refusal> {
        let Receiver {
            limit,
            phase,
            count,
            bytes,
        } = receiver;
        let phase = Phase::try_from(phase)?;
        if limit != NODE_LIMIT && limit != GATEWAY_LIMIT {
            return Err(Refusal::Node);
        }
        if limit + 2 < count || phase == Phase::BeforeFlag && count != 0 {
            return Err(Refusal::Node);
        }
        Ok(Progress {
            limit,
            phase,
            count,
            bytes,
        })
    }
}

impl From<Progress> for Receiver {
    ghost use Rattle.uart.specs.Progress.{receiver_of};

    ghost from_gives = { λ progress receiver. receiver ≡ receiver_of progress };

    fn from(progress: Progress) -> Receiver {
        let bytes = progress.bytes;
        Receiver {
            limit: progress.limit,
            phase: u8::from(progress.phase),
            count: progress.count,
            bytes,
        }
    }
}

impl Progress {
    ghost use Rattle.std.specs.Prelude.{◌&&◌, eqb, length, MatchResult};
    ghost use Rattle.framing.specs.Framing.{flag};
    ghost use Rattle.uart.specs.Receiver.{in_frame, phase_number, cause_number, receiver_from, begun, stored, next_receiver, frame, dropped, event_answer};
    ghost use Rattle.uart.specs.Progress.{receiver_of, ended};

    // Whether an escape or a byte came since the last flag.
    #[tactic(auto, unfolding(crate::specs::Receiver::begun))]
    fn begun(&self) -> bool
        ensures { result ≡ begun (phase_number self.now.phase) self.now.count }
    {
        match self.phase {
            Phase::BeforeFlag => false,
            Phase::InFrame => self.count != 0,
            Phase::AfterEscape => true,
        }
    }

    // Whether a byte of the line ends a frame.
    pub(crate) fn ends(&self, byte: u8) -> bool
        ensures { result ≡ (eqb byte flag && begun (phase_number self.now.phase) self.now.count) }
    {
        byte == FLAG && self.begun()
    }

    // Adds a byte of the message. Bytes after the place of the check byte are only counted, as one.
    #[tactic(auto, unfolding(crate::specs::Receiver::stored))]
    fn store(&mut self, byte: u8)
        ensures { receiver_of self.new ≡ stored (receiver_of self.old) byte }
    {
        if self.limit < self.count {
            self.count = self.limit + 2;
        } else {
            self.bytes[usize::from(self.count)] = byte;
            self.count += 1;
        }
        self.phase = Phase::InFrame;
    }

    // Takes a byte of the line.
    #[tactic(auto, unfolding(crate::specs::Receiver::next_receiver, crate::specs::Receiver::data_byte))]
    pub(crate) fn take(&mut self, byte: u8)
        ensures { receiver_of self.new ≡ next_receiver (receiver_of self.old) byte }
    {
        if byte == FLAG {
            self.phase = Phase::InFrame;
            self.count = 0;
            return;
        }
        match self.phase {
            Phase::BeforeFlag => {}
            Phase::InFrame if byte == ESCAPE => self.phase = Phase::AfterEscape,
            Phase::InFrame => self.store(byte),
            Phase::AfterEscape => self.store(flipped(byte)),
        }
    }

    // The message of the frame that a flag ends, or why it is dropped.
    #[tactic(auto, unfolding(crate::specs::Receiver::drop_cause, crate::specs::Receiver::event_for))]
    fn message(&self) -> Result<&[u8], DropCause>
        ensures { MatchResult result (λ m. (frame m.now ≡ ended self.now) × (length m.now ≤ longest)) (λ cause. dropped (cause_number cause) ≡ ended self.now) }
    {
        if self.limit + 1 < self.count {
            return Err(DropCause::TooLong);
        }
        if self.phase == Phase::AfterEscape {
            return Err(DropCause::Cut);
        }
        let count = usize::from(self.count);
        if count < SHORTEST + 1 {
            return Err(DropCause::Short);
        }
        let last = count - 1;
        let message = &self.bytes[..last];
        if check_byte(message) != self.bytes[last] {
            return Err(DropCause::CheckByte);
        }
        Ok(message)
    }

    // The answer at a flag that ends a frame.
    pub(crate) fn end_frame(self, taken: usize) -> ReceiveAnswer
        ensures { result ≡ event_answer (ended self) taken (receiver_from self.limit in_frame 0 self.bytes) }
    {
        let bytes = self.bytes;
        let receiver = Receiver {
            limit: self.limit,
            phase: u8::from(Phase::InFrame),
            count: 0,
            bytes,
        };
        match self.message() {
            Ok(frame) => ReceiveAnswer::frame(frame, taken, receiver),
            Err(cause) => ReceiveAnswer::dropped(cause, taken, receiver),
        }
    }
}
