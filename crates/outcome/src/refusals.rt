// The refusals of `handle_request`.
ghost use Rattle.std.specs.Prelude.{◌≡◌};
ghost use Rattle.dpa.specs.Refusal.{refusal_of};
ghost use Rattle.outcome.specs.Request.{request_refusal};

use dpa::frame::Frame;
use dpa::refusal::Refusal;
use memory::block::Memory;
use node::record::{Node, node_ok};

// Whether a call is accepted: the tests are in the order of the refusals' numbers.
#[tactic(auto, unfolding(crate::specs::Request::request_refusal))]
pub fn request_refusal(
    node: Node,
    frame_length: usize,
    eeprom_length: usize,
    external_length: usize,
    response_length: usize,
) -> Result<(), Refusal>
    ensures { refusal_of result ≡ request_refusal node frame_length eeprom_length external_length response_length }
{
    if !node_ok(node) {
        return Err(Refusal::Node);
    }
    if !Frame::fits(frame_length) {
        return Err(Refusal::Frame);
    }
    if response_length < Frame::RESPONSE_LONGEST {
        return Err(Refusal::Response);
    }
    if eeprom_length != Memory::Eeprom.size() {
        return Err(Refusal::Memory);
    }
    if external_length != Memory::External.size() {
        return Err(Refusal::Memory);
    }
    Ok(())
}
