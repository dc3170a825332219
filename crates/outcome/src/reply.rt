// The reply to a request, made from the reply of the peripheral or from the check of a list.
ghost use Rattle.std.specs.Prelude.{◌≡◌, ℕ, List};
ghost use Rattle.dpa.specs.Error.{error_of};
ghost use Rattle.dpa.specs.Reply.{length_of};
ghost use Rattle.node.specs.State.{State};
ghost use Rattle.batch.specs.Seen.{check_seen};
ghost use Rattle.outcome.specs.Request.{list_request};
ghost use Rattle.outcome.specs.Seen.{check_of, reply_of, error_only, peripheral_only, answer_seen, answer_in_buffer};

use batch::fault::{self, ListFault};
use dpa::error::{self, ErrN, errn_of};

// What a request reports to the caller besides the response: the load mark; why and at which place of PData the list of a batch cannot
// be read.
#[derive(Clone, Copy, Debug, PartialEq, Eq)]
pub struct Report {
    pub load: bool,
    pub reason: u8,
    pub place: usize,
}

impl Report {
    pub const NONE: Report = Report {
        load: false,
        reason: fault::NONE,
        place: 0,
    };
}

// What a request that was answered still has to change.
#[derive(Clone, Copy, Debug, PartialEq, Eq)]
pub enum Effect {
    // Nothing: an error, no answer, or a request that changes nothing.
    Nothing,
    // What a request to the lights does.
    Lamps,
    // What any other request to a peripheral does.
    Alone,
    // What the entries of a batch do.
    Batch,
    // What the entries of a selective batch do.
    Selective,
}

// The outcome of a peripheral in numbers: ErrN, and the length of the data.
#[derive(Clone, Copy, Debug, PartialEq, Eq)]
pub struct Reply {
    pub error: u8,
    pub length: usize,
}

impl From<Result<usize, ErrN>> for Reply {
    ghost from_gives = { λ outcome reply. reply ≡ record { error = error_of outcome; length = length_of outcome } };

    fn from(outcome: Result<usize, ErrN>) -> Reply {
        Reply {
            error: errn_of(outcome),
            length: outcome.unwrap_or(0),
        }
    }
}

// The check of a list in numbers: the reason and the place of its first fault.
#[derive(Clone, Copy, Debug, PartialEq, Eq)]
pub enum ListCheck {
    Sound,
    Broken { reason: u8, at: usize },
}

impl From<Result<(), ListFault>> for ListCheck {
    ghost from_gives = { λ outcome check. check_of check ≡ check_seen outcome };

    fn from(outcome: Result<(), ListFault>) -> ListCheck {
        match outcome {
            Ok(()) => ListCheck::Sound,
            Err(fault) => ListCheck::Broken {
                reason: u8::from(fault.reason),
                at: fault.at,
            },
        }
    }
}

// ErrN, the report, the length of the data, and what is still to be changed. ErrN and the reason are numbers, as in the response and in the
// record for C. Any number can stand there. A request that is not answered has no reply.
#[derive(Clone, Copy, Debug, PartialEq, Eq)]
pub struct RequestReply {
    pub error: u8,
    pub report: Report,
    pub length: usize,
    pub effect: Effect,
}

// The reply in a response, and the length of the response.
#[derive(Clone, Copy, Debug, PartialEq, Eq)]
pub struct Response {
    pub reply: Option<RequestReply>,
    pub length: usize,
}

impl Response {
    // What the request reports.
    pub fn report(self) -> Report
        ensures { result ≡ (reply_of self.reply).report }
    {
        self.reply.map_or(Report::NONE, |reply| reply.report)
    }

    // What is still to be changed.
    pub fn effect(self) -> Effect
        ensures { result ≡ (reply_of self.reply).effect }
    {
        self.reply.map_or(Effect::Nothing, |reply| reply.effect)
    }
}

// The reply to an error.
pub fn error_reply(error: u8) -> RequestReply
    ensures { reply_of (Some result) ≡ error_only error }
{
    RequestReply {
        error,
        report: Report::NONE,
        length: 0,
        effect: Effect::Nothing,
    }
}

// The reply of a peripheral, which has nothing to report, with its effect if it succeeds.
pub fn peripheral_reply(reply: Reply, effect: Effect) -> RequestReply
    ensures { reply_of (Some result) ≡ peripheral_only effect reply.error reply.length }
{
    let failed = reply.error != error::NONE;
    RequestReply {
        error: reply.error,
        report: Report::NONE,
        length: reply.length,
        effect: if failed { Effect::Nothing } else { effect },
    }
}

// The reply to a batch whose list has this check: a sound list is still to be run, the fault of a broken one is reported.
#[tactic(auto, unfolding(crate::specs::Request::list_request, crate::specs::Effect::on_success))]
pub fn list_reply(check: ListCheck, effect: Effect) -> RequestReply
    ensures { (list : List ℕ) (st : State) (o : List ℕ) → answer_seen (Some result) o ≡ answer_in_buffer (list_request (check_of check) list st) effect o }
{
    match check {
        ListCheck::Sound => RequestReply {
            error: error::NONE,
            report: Report::NONE,
            length: 0,
            effect,
        },
        ListCheck::Broken { reason, at } => RequestReply {
            error: u8::from(ErrN::Data),
            report: Report {
                load: false,
                reason,
                place: at,
            },
            length: 0,
            effect: Effect::Nothing,
        },
    }
}
