// What `handle_request` returns.
ghost use Rattle.std.specs.Prelude.{◌≡◌, true, false, ◌≤◌};
ghost use Rattle.dpa.specs.Frame.{pdata_max};
ghost use Rattle.outcome.specs.Request.{no_report};
ghost use Rattle.outcome.specs.Seen.{request_answer};

use crate::reply::Report;
use batch::fault;
use dpa::refusal::NONE;
use node::record::Node;

// The refusal, the length of the response, the load mark, whether the frame was addressed to this node or to all, why and at which
// place in PData the list of a batch cannot be read, and the node after the call. C reads this record (`grelfint_handle_request`), so it has
// numbers in place of a Result, an Option and enums.
#[repr(C)]
#[derive(Clone, Copy)]
pub struct RequestAnswer {
    pub refusal: u8,
    pub length: usize,
    pub load: bool,
    pub addressed: bool,
    pub reason: u8,
    pub place: u8,
    pub node: Node,
}

// Refused, or addressed to another node: nothing was done.
pub fn answer_unhandled(node: Node, refusal: u8) -> RequestAnswer
    ensures { result ≡ request_answer refusal 0 no_report false node }
{
    RequestAnswer {
        refusal,
        length: 0,
        load: false,
        addressed: false,
        reason: fault::NONE,
        place: 0,
        node,
    }
}

// Handled, with the node after the request and what the request reports. `RequestAnswer` has the fields of the report among its own. A place
// is at most the length of PData, so it fits a byte.
pub fn answer_handled(node: Node, length: usize, report: Report) -> RequestAnswer
    requires { report.place ≤ pdata_max }
    ensures { result ≡ request_answer 0 length report true node }
{
    RequestAnswer {
        refusal: NONE,
        length,
        load: report.load,
        addressed: true,
        reason: report.reason,
        place: report.place as u8,
        node,
    }
}
