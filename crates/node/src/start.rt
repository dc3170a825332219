// Starting a node.
ghost use Rattle.std.specs.Prelude.{◌≡◌};
ghost use Rattle.node.specs.Node.{blank, fresh, start_of, node_seen};

use crate::record::{Node, NodeAnswer};
use dpa::refusal::Refusal;
use dpa::settings::{Settings, settings_ok};
use dpa::sizes::RAM_SIZE;
use lights::lamp::{LAMPS, Lamp};

// A node with every lamp off and every RAM byte 0.
fn fresh_node(settings: Settings) -> Node
    ensures { result ≡ fresh settings }
{
    Node {
        settings,
        lamps: [Lamp::default(); LAMPS],
        ram: [0; RAM_SIZE],
    }
}

// Returns a fresh node.
#[tactic(auto, unfolding(crate::specs::Node::start_of))]
pub fn start(settings: Settings) -> Result<Node, Refusal>
    ensures { node_seen blank result ≡ start_of settings }
{
    if !settings_ok(settings) {
        return Err(Refusal::Node);
    }
    Ok(fresh_node(settings))
}

// What C gets: a fresh node, or a record of zeros if the settings are out of range.
pub fn start_answer(settings: Settings) -> NodeAnswer
    ensures { result ≡ start_of settings }
{
    NodeAnswer::after(fresh_node(Settings::default()), start(settings))
}
