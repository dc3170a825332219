// Requests, and the read view of a memory.
ghost use Rattle.std.specs.Prelude.{◌≡◌};
ghost use Rattle.memory.specs.View.{view_status};
ghost use Rattle.node.specs.State.{state};
ghost use Rattle.outcome.specs.Request.{handle_request};
ghost use Rattle.outcome.specs.Seen.{call_result};

use dpa::refusal::status_of;
use handler::request::handle_request;
use memory::view::view_status;
use node::record::Node;
use outcome::answer::RequestAnswer;

#[unsafe(no_mangle)]
pub extern "C" fn grelfint_handle_request(
    node: Node,
    frame: &[u8],
    eeprom: &mut [u8],
    external: &mut [u8],
    response: &mut [u8],
) -> RequestAnswer
    ensures { call_result result eeprom.new external.new response.new
        ≡ handle_request frame.now (state node eeprom.old external.old) response.old }
{
    handle_request(node, frame, eeprom, external, response)
}

// With status 0 the caller reads the bytes from its own memory; no reference is returned to C.
#[unsafe(no_mangle)]
pub extern "C" fn grelfint_view_status(
    eeprom: &[u8],
    external: &[u8],
    pnum: u8,
    start: usize,
    count: usize,
) -> u8
    ensures { result ≡ view_status eeprom.now external.now pnum start count }
{
    status_of(view_status(eeprom, external, pnum, start, count))
}
