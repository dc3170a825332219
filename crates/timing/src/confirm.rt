// The confirmation that the gateway returns for a request.
ghost use Rattle.std.specs.Prelude.{◌≡◌, ◌≤◌, length};
ghost use Rattle.dpa.specs.Answer.{length_answer, length_result};
ghost use Rattle.dpa.specs.Frame.{header_size};
ghost use Rattle.timing.specs.Confirm.{response_hops_sent, confirm_of};

use crate::slot::{Network, slot_of};
use dpa::copy::copy;
use dpa::frame::Frame;
use dpa::refusal::Refusal;

// The status that marks a confirmation; it is where a response has ErrN.
const STATUS_CONFIRMATION: u8 = 0xFF;

// The request's header, status, DpaValue, hops, timeslot, response hops.
pub const CONFIRMATION_LENGTH: usize = Frame::HEADER + 5;

// Where the last three of these are.
pub const AT_HOPS: usize = Frame::HEADER + 2;

pub const AT_TIMESLOT: usize = Frame::HEADER + 3;

pub const AT_RESPONSE_HOPS: usize = Frame::HEADER + 4;

// A broadcast has no response, so its response hops are 0.
#[tactic(auto, unfolding(crate::specs::Confirm::response_hops_sent))]
fn response_hops_sent(frame: &[u8], response_hops: u8) -> u8
    requires { header_size ≤ length frame.now }
    ensures { result ≡ response_hops_sent frame.now response_hops }
{
    let header = Frame::read(frame);
    if header.nadr == Frame::BROADCAST {
        return 0;
    }
    response_hops
}

// Confirms a request. NADR is not checked. The hops are no struct, because grelfint_confirm and a waiting request have them apart.
#[tactic(auto, using(dpa::proofs::Headers::fits_sizes, crate::proofs::Confirmations::confirmation_length_lem), unfolding(crate::specs::Confirm::confirm_of))]
pub fn confirm(
    frame: &[u8],
    dpa_value: u8,
    hops: u8,
    response_hops: u8,
    network: Network,
    out: &mut [u8],
) -> Result<usize, Refusal>
    ensures { length_result (length_answer result) out.new ≡ confirm_of frame.now dpa_value hops response_hops network out.old }
{
    if !Frame::fits(frame.len()) {
        return Err(Refusal::Frame);
    }
    if out.len() < Frame::RESPONSE_LONGEST {
        return Err(Refusal::Response);
    }
    let slot = slot_of(frame.len() - Frame::HEADER, network);
    copy(&frame[..Frame::HEADER], out);
    out[Frame::AT_ERRN] = STATUS_CONFIRMATION;
    out[Frame::AT_DPA_VALUE] = dpa_value;
    out[AT_HOPS] = hops;
    out[AT_TIMESLOT] = slot;
    out[AT_RESPONSE_HOPS] = response_hops_sent(frame, response_hops);
    Ok(CONFIRMATION_LENGTH)
}
