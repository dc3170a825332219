// The answer to a request: ErrN, the response data, the report, and the effect that is still to be carried out.
ghost use Rattle.std.specs.Prelude.{◌≡◌, ◌≤◌, length};
ghost use Rattle.dpa.specs.Frame.{pdata_max};
ghost use Rattle.node.specs.State.{SoundState};
ghost use Rattle.outcome.specs.Request.{execute};
ghost use Rattle.outcome.specs.Effect.{request_effect};
ghost use Rattle.outcome.specs.Seen.{state_from_parts, request_seen, answer_seen, answer_in_buffer};

use crate::os::os_answer;
use dpa::error::ErrN;
use dpa::pnum;
use lights::lamp::{LAMPS, Lamp};
use memory::block::Memory;
use node::record::ReadOnly;
use outcome::hwpid::hwpid_matches;
use outcome::reply::{Effect, Reply, RequestReply, error_reply, peripheral_reply};
use outcome::request::Request;

// Tests the HWPID, then asks the peripheral of the PNUM. The response data goes to the front of `out`. That it has room is a `requires`, here
// and of each peripheral, because document 01 asks for a slice of the response buffer. The node comes in its parts, because a record that is
// passed whole is copied.
// The memories are three slices and not `&Memories`, with which a set of one lamp takes 1.25 times as long as in Rust, in place of 1.14.
#[tactic(auto, unfolding(outcome::specs::Request::execute, outcome::specs::Request::peripheral_request, outcome::specs::Effect::on_success))]
pub fn answer(
    fixed: ReadOnly,
    lamps: [Lamp; LAMPS],
    request: Request,
    ram: &[u8],
    eeprom: &[u8],
    external: &[u8],
    out: &mut [u8],
) -> Option<RequestReply>
    requires { SoundState (state_from_parts fixed lamps ram.now eeprom.now external.now) × (pdata_max ≤ length out.old) }
    ensures { answer_seen result out.new
        ≡ answer_in_buffer (execute (request_seen request.entry) (state_from_parts fixed lamps ram.now eeprom.now external.now))
        (request_effect (request_seen request.entry)) out.old }
{
    let Request { header, pdata } = request;
    if !hwpid_matches(fixed.settings, header.hwpid) {
        return Some(error_reply(u8::from(ErrN::Hwpid)));
    }
    let pcmd = header.pcmd;
    let (outcome, effect) = match header.pnum {
        pnum::OS => return os_answer(fixed.settings.address, pcmd, pdata, external, out),
        pnum::EEPROM => (
            memory::request::answer(Memory::Eeprom, eeprom, pcmd, pdata, out),
            Effect::Alone,
        ),
        pnum::EXTERNAL => (
            memory::request::answer(Memory::External, external, pcmd, pdata, out),
            Effect::Alone,
        ),
        pnum::RAM => (
            memory::request::answer(Memory::Ram, ram, pcmd, pdata, out),
            Effect::Alone,
        ),
        pnum::LIGHTS => (
            lights::request::request(fixed.settings, lamps, pcmd, pdata, out),
            Effect::Lamps,
        ),
        _ => (Err(ErrN::Pnum), Effect::Alone),
    };
    Some(peripheral_reply(Reply::from(outcome), effect))
}
