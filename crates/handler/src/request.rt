// `handle_request`: refusals, the address, the answer, the response, and finally the effect.
ghost use Rattle.std.specs.Prelude.{◌≡◌, ◌||◌, ◌≤◌, eqb, length};
ghost use Rattle.dpa.specs.Frame.{header_size, longest_frame, longest_response, broadcast_nadr};
ghost use Rattle.node.specs.State.{state, SoundState};
ghost use Rattle.outcome.specs.Request.{execute, handle_frame, handle_request};
ghost use Rattle.outcome.specs.Effect.{request_effect};
ghost use Rattle.outcome.specs.Seen.{state_from_parts, request_seen, response_seen, addressed_result, answer_in_response, call_result};

use dpa::frame::{Frame, write_response_header};
use dpa::refusal;
use effects::apply::apply;
use lights::lamp::{LAMPS, Lamp};
use node::record::{Node, ReadOnly};
use outcome::answer::{RequestAnswer, answer_handled, answer_unhandled};
use outcome::memories::Memories;
use outcome::refusals::request_refusal;
use outcome::reply::{RequestReply, Response};
use outcome::request::Request;
use peripherals::answer::answer;

// Answers a request to all nodes or to this one; node and memories are only read, and come in their parts as in `peripherals::answer`. The
// data of a broadcast goes to a scratch buffer, because it gets no response. The data for this node is written after the response header, then
// the header in front of it. A request that is not answered leaves the buffer as it is.
fn respond(
    fixed: ReadOnly,
    lamps: [Lamp; LAMPS],
    request: Request,
    ram: &[u8],
    eeprom: &[u8],
    external: &[u8],
    response: &mut [u8],
) -> Response
    requires { SoundState (state_from_parts fixed lamps ram.now eeprom.now external.now) × (longest_response ≤ length response.old) }
    ensures { response_seen result response.new
        ≡ answer_in_response (execute (request_seen request.entry) (state_from_parts fixed lamps ram.now eeprom.now external.now))
        (request_effect (request_seen request.entry))
        (addressed_result fixed.settings request.entry.header (request_seen request.entry)
        (execute (request_seen request.entry) (state_from_parts fixed lamps ram.now eeprom.now external.now)) response.old) }
{
    let header = request.header;
    if header.nadr == Frame::BROADCAST {
        let mut scratch = [0u8; Frame::PDATA_MAX];
        let reply = answer(fixed, lamps, request, ram, eeprom, external, &mut scratch);
        return Response { reply, length: 0 };
    }
    let data = &mut response[Frame::RESPONSE_HEADER..];
    let reply = answer(fixed, lamps, request, ram, eeprom, external, data);
    let Some(RequestReply { error, length, .. }) = reply else {
        return Response {
            reply: None,
            length: 0,
        };
    };
    write_response_header(response, fixed.settings, header.pnum, header.pcmd, error);
    Response {
        reply,
        length: Frame::RESPONSE_HEADER + length,
    }
}

// Whether a frame is for all nodes or for the one with this address.
fn addressed(nadr: u16, address: u16) -> bool
    ensures { result ≡ (eqb nadr broadcast_nadr || eqb nadr address) }
{
    (nadr == Frame::BROADCAST) | (nadr == address)
}

// Handles a frame that was not refused. Lamps and memories change last, in one call.
#[tactic(auto, unfolding(outcome::specs::Request::handle_frame))]
fn handle_frame(
    node: Node,
    frame: &[u8],
    eeprom: &mut [u8],
    external: &mut [u8],
    response: &mut [u8],
) -> RequestAnswer
    requires { SoundState (state node eeprom.old external.old) × (header_size ≤ length frame.now) × (length frame.now ≤ longest_frame)
        × (longest_response ≤ length response.old) }
    ensures { call_result result eeprom.new external.new response.new
        ≡ handle_frame frame.now (state node eeprom.old external.old) response.old }
{
    let request = Request::read(frame);
    if !addressed(request.header.nadr, node.settings.address) {
        return answer_unhandled(node, refusal::NONE);
    }
    let fixed = ReadOnly::from(node);
    let lamps = node.lamps;
    let mut ram = node.ram;
    let done = respond(fixed, lamps, request, &ram, eeprom, external, response);
    let mut memories = Memories {
        ram: &mut ram,
        eeprom,
        external,
    };
    let after = apply(fixed, lamps, done.effect(), request, &mut memories);
    answer_handled(fixed.node(after, ram), done.length, done.report())
}

// Handles a request. A refused call changes nothing. Node, memories and buffers come one by one, as C passes them (grelfint_handle_request).
#[tactic(auto, unfolding(outcome::specs::Request::handle_request))]
pub fn handle_request(
    node: Node,
    frame: &[u8],
    eeprom: &mut [u8],
    external: &mut [u8],
    response: &mut [u8],
) -> RequestAnswer
    ensures { call_result result eeprom.new external.new response.new
        ≡ handle_request frame.now (state node eeprom.old external.old) response.old }
{
    let accepted = request_refusal(
        node,
        frame.len(),
        eeprom.len(),
        external.len(),
        response.len(),
    );
    match accepted {
        Ok(()) => handle_frame(node, frame, eeprom, external, response),
        Err(refusal) => answer_unhandled(node, u8::from(refusal)),
    }
}
