// Runs a scene on a node: compiles it into the caller's buffer, then handles its requests in order.
ghost use Rattle.std.specs.Prelude.{◌≡◌, ◌≤◌, ℕ, List, length, IfErr};
ghost use Rattle.node.specs.State.{state};
ghost use Rattle.outcome.specs.Request.{handle_request};
ghost use Rattle.output.specs.Output.{split_by, requests_in, total_length, CompleteOutput};
ghost use Rattle.acceptance.specs.SceneTheorem.{after_calls};
ghost use Rattle.scene.specs.Answer.{NamesStep};
ghost use Rattle.acceptance.specs.RunScene.{zero_buffer, run_scene, scene_result, answer_result};

use dpa::frame::Frame;
use dpa::refusal::{NONE, Refusal};
use handler::request::handle_request;
use memory::block::Memory;
use node::record::{Node, node_ok};
use scene::compile::{CompileAnswer, CompileError, compile};

// The result in a form that can cross to C: the refusal, the number of the bad step with refusals 81 to 84 and 0 otherwise, and the node
// afterwards.
#[repr(C)]
#[derive(Clone, Copy)]
pub struct SceneAnswer {
    pub refusal: u8,
    pub step: u8,
    pub node: Node,
}

impl SceneAnswer {
    // The answer to a call for this node, which a refused call leaves as it was.
    pub fn after(node: Node, outcome: Result<Node, CompileError>) -> SceneAnswer
        ensures { (e x o : List ℕ) → answer_result result e x o ≡ scene_result node outcome e x o }
    {
        match outcome {
            Ok(node) => SceneAnswer {
                refusal: NONE,
                step: 0,
                node,
            },
            Err(error) => {
                let refused = CompileAnswer::from(Err(error));
                SceneAnswer {
                    refusal: refused.refusal,
                    step: refused.step,
                    node,
                }
            }
        }
    }
}

// Handles one request; its response goes to a scratch buffer. Here and below node and memories are parameters of their own: in a struct each
// function would have to promise, besides, that the same memories stay lent.
fn handle_one(node: Node, frame: &[u8], eeprom: &mut [u8], external: &mut [u8]) -> Node
    ensures { state result eeprom.new external.new
        ≡ (handle_request frame.now (state node eeprom.old external.old) zero_buffer).after }
{
    let mut response = [0u8; Frame::RESPONSE_LONGEST];
    handle_request(node, frame, eeprom, external, &mut response).node
}

// Handles requests that follow one another in the bytes, each of the length that its length byte gives.
fn handle_all(
    node: Node,
    lengths: &[u8],
    requests: &[u8],
    eeprom: &mut [u8],
    external: &mut [u8],
) -> Node
    requires { total_length lengths.now ≤ length requests.now }
    ensures { state result eeprom.new external.new
        ≡ after_calls (λ _. zero_buffer) (split_by lengths.now requests.now) (state node eeprom.old external.old) }
{
    let mut next = node;
    let mut rest = requests;
    for len in lengths {
        let (request, later) = rest.split_at(usize::from(*len));
        next = handle_one(next, request, eeprom, external);
        rest = later;
    }
    next
}

// Handles the requests of a compiled output.
fn handle_output(node: Node, output: &[u8], eeprom: &mut [u8], external: &mut [u8]) -> Node
    requires { CompleteOutput output.now }
    ensures { state result eeprom.new external.new
        ≡ after_calls (λ _. zero_buffer) (requests_in output.now) (state node eeprom.old external.old) }
{
    let start = 1 + usize::from(output[0]);
    handle_all(node, &output[1..start], &output[start..], eeprom, external)
}

// Runs a scene of a book on a node, compiled for the node's own address and profile; returns the node afterwards.
#[tactic(auto, unfolding(crate::specs::RunScene::run_scene))]
pub fn run_scene(
    node: Node,
    book: &[u8],
    scene: usize,
    eeprom: &mut [u8],
    external: &mut [u8],
    out: &mut [u8],
) -> Result<Node, CompileError>
    ensures answer { scene_result node result eeprom.new external.new out.new
        ≡ run_scene book.now scene (state node eeprom.old external.old) out.old }
    ensures error { IfErr result NamesStep }
{
    if !node_ok(node) {
        return Err(Refusal::Node.into());
    }
    if eeprom.len() != Memory::Eeprom.size() {
        return Err(Refusal::Memory.into());
    }
    if external.len() != Memory::External.size() {
        return Err(Refusal::Memory.into());
    }
    let settings = node.settings;
    let compiled = compile(book, scene, settings.address, settings.hwpid, out);
    let end = compiled?;
    Ok(handle_output(node, &out[..end], eeprom, external))
}

// `run_scene` with an answer that can cross to C.
pub fn scene_answer(
    node: Node,
    book: &[u8],
    scene: usize,
    eeprom: &mut [u8],
    external: &mut [u8],
    out: &mut [u8],
) -> SceneAnswer
    ensures { answer_result result eeprom.new external.new out.new
        ≡ run_scene book.now scene (state node eeprom.old external.old) out.old }
{
    let outcome = run_scene(node, book, scene, eeprom, external, out);
    SceneAnswer::after(node, outcome)
}
