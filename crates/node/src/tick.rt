// The tick, which the main loop calls once a second.
ghost use Rattle.std.specs.Prelude.{◌≡◌};
ghost use Rattle.dpa.specs.Refusal.{refusal_of};
ghost use Rattle.node.specs.Node.{tick_lamps, tick_node, tick_of, node_seen};

use crate::record::{Node, NodeAnswer, node_ok};
use dpa::refusal::{NONE, Refusal};
use lights::lamp::{LAMPS, Lamp, tick_lamp};

// A loop: `lamps.map(tick_lamp)` is not vectorized and takes three times as long.
#[tactic(auto, using(crate::proofs::Maps::map_done), unfolding(crate::specs::Node::tick_lamps))]
fn tick_lamps(lamps: [Lamp; LAMPS]) -> [Lamp; LAMPS]
    ensures { result ≡ tick_lamps lamps }
{
    let mut next = lamps;
    for lamp in &mut next {
        *lamp = tick_lamp(*lamp);
    }
    next
}

// A sound node one second later.
#[tactic(auto, unfolding(crate::specs::Node::tick_node))]
fn tick_node(node: Node) -> Node
    ensures { result ≡ tick_node node }
{
    Node {
        lamps: tick_lamps(node.lamps),
        ..node
    }
}

// Returns the node one second later.
#[tactic(auto, unfolding(crate::specs::Node::tick_of))]
pub fn tick(node: Node) -> Result<Node, Refusal>
    ensures { node_seen node result ≡ tick_of node }
{
    if !node_ok(node) {
        return Err(Refusal::Node);
    }
    Ok(tick_node(node))
}

// Ticks the caller's node record in place.
pub fn tick_in_place(node: &mut Node) -> Result<(), Refusal>
    ensures { (refusal_of result ≡ (tick_of node.old).refusal) × (node.new ≡ (tick_of node.old).node) }
{
    *node = tick(*node)?;
    Ok(())
}

// What C gets: the node one second later, or as it was if it breaks the node rule. It does not call `tick`, because a `Result` with the node
// would be copied once more.
#[tactic(auto, unfolding(crate::specs::Node::tick_of))]
pub fn tick_answer(node: Node) -> NodeAnswer
    ensures { result ≡ tick_of node }
{
    if !node_ok(node) {
        return NodeAnswer {
            refusal: u8::from(Refusal::Node),
            node,
        };
    }
    NodeAnswer {
        refusal: NONE,
        node: tick_node(node),
    }
}
