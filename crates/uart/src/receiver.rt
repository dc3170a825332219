// The record of a receiver, its rule, and the answer to a call.
ghost use Rattle.std.specs.Prelude.{◌≡◌, ◌≤◌, ◌<◌, [], length, MatchResult};
ghost use Rattle.dpa.specs.Refusal.{refusal_number};
ghost use Rattle.dpa.specs.declared.refusal.Refusal.TheVariants.{Node};
ghost use Rattle.framing.specs.Framing.{longest};
ghost use Rattle.uart.specs.Receiver.{after_escape, phase_number, cause_number, new_receiver, none, frame, dropped, receive_answer, event_answer};

use dpa::copy::copy;
use dpa::refusal::{NONE, Refusal};
use framing::frame::LONGEST;

// The longest message, without its check byte: at a gateway, which gets responses, and at a node, which gets requests.
pub const GATEWAY_LIMIT: u8 = 64;

pub const NODE_LIMIT: u8 = 62;

// The places of a record: one more than the longest message has bytes, for the check byte.
pub const PLACES: usize = LONGEST + 1;

// What a receiver waits for: its first flag, a byte of a frame, or the byte after an escape.
#[derive(Clone, Copy, Debug, PartialEq, Eq)]
pub enum Phase {
    BeforeFlag = 0,
    InFrame = 1,
    AfterEscape = 2,
}

impl From<Phase> for u8 {
    ghost from_gives = { λ phase n. n ≡ phase_number phase };

    fn from(phase: Phase) -> u8 {
        phase as u8
    }
}

impl TryFrom<u8> for Phase {
    type Error = Refusal;

    ghost try_from_gives = { λ n outcome. MatchResult outcome (λ phase. phase_number phase ≡ n) (λ e. (after_escape < n) × (e ≡ Node)) };

    fn try_from(n: u8) -> Result<Phase, Refusal> {
        match n {
            0 => Ok(Phase::BeforeFlag),
            1 => Ok(Phase::InFrame),
            2 => Ok(Phase::AfterEscape),
            _ => Err(Refusal::Node),
        }
    }
}

// The count is of the bytes of the frame that is under way, with its check byte; it stops at limit + 2. Byte k is in bytes[k] if k is at
// most the limit. The phase is a number, and the count stands beside the bytes, because C stores the record (grelfint_uart_receiver).
#[repr(C)]
#[derive(Clone, Copy)]
pub struct Receiver {
    pub limit: u8,
    pub phase: u8,
    pub count: u8,
    pub bytes: [u8; PLACES],
}

// A receiver that waits for its first flag. The limit goes by a flag, because grelfint_uart_receiver gets one.
#[tactic(auto, unfolding(crate::specs::Receiver::new_receiver))]
pub fn new_receiver(gateway: bool) -> Receiver
    ensures { result ≡ new_receiver gateway }
{
    let limit = if gateway { GATEWAY_LIMIT } else { NODE_LIMIT };
    let bytes = [0; PLACES];
    Receiver {
        limit,
        phase: u8::from(Phase::BeforeFlag),
        count: 0,
        bytes,
    }
}

// Events: all bytes taken and no frame yet, a frame, a dropped frame.
#[derive(Clone, Copy, Debug, PartialEq, Eq)]
pub enum Event {
    None = 0,
    Frame = 1,
    Dropped = 2,
}

// The number of a call that drops no frame.
pub const NO_CAUSE: u8 = 0;

// Why a frame is dropped; the first that applies is given.
#[derive(Clone, Copy, Debug, PartialEq, Eq)]
pub enum DropCause {
    TooLong = 1,
    // An escape is the last byte before the flag.
    Cut = 2,
    Short = 3,
    CheckByte = 4,
}

impl From<DropCause> for u8 {
    ghost from_gives = { λ cause n. n ≡ cause_number cause };

    fn from(cause: DropCause) -> u8 {
        cause as u8
    }
}

// The message is at the front of `frame`, with zeros after it. Refusal, event and cause are numbers, and the length stands beside the frame,
// because C gets the record (grelfint_uart_receive).
#[repr(C)]
#[derive(Clone, Copy)]
pub struct ReceiveAnswer {
    pub refusal: u8,
    pub event: u8,
    pub cause: u8,
    pub taken: usize,
    pub length: usize,
    pub frame: [u8; LONGEST],
    pub receiver: Receiver,
}

impl ReceiveAnswer {
    // No frame yet.
    pub(crate) fn nothing(taken: usize, receiver: Receiver) -> ReceiveAnswer
        ensures { result ≡ event_answer none taken receiver }
    {
        ReceiveAnswer {
            refusal: NONE,
            event: Event::None as u8,
            cause: NO_CAUSE,
            taken,
            length: 0,
            frame: [0; LONGEST],
            receiver,
        }
    }

    pub(crate) fn refused(refusal: Refusal, receiver: Receiver) -> ReceiveAnswer
        ensures { result ≡ receive_answer (refusal_number refusal) 0 0 0 [] receiver }
    {
        ReceiveAnswer {
            refusal: u8::from(refusal),
            ..ReceiveAnswer::nothing(0, receiver)
        }
    }

    pub(crate) fn dropped(cause: DropCause, taken: usize, receiver: Receiver) -> ReceiveAnswer
        ensures { result ≡ event_answer (dropped (cause_number cause)) taken receiver }
    {
        ReceiveAnswer {
            event: Event::Dropped as u8,
            cause: u8::from(cause),
            ..ReceiveAnswer::nothing(taken, receiver)
        }
    }

    pub(crate) fn frame(message: &[u8], taken: usize, receiver: Receiver) -> ReceiveAnswer
        requires { length message.now ≤ longest }
        ensures { result ≡ event_answer (frame message.now) taken receiver }
    {
        let mut answer = ReceiveAnswer::nothing(taken, receiver);
        answer.event = Event::Frame as u8;
        answer.length = message.len();
        copy(message, &mut answer.frame);
        answer
    }
}
