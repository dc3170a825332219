// The node record and the node rule.
ghost use Rattle.std.specs.Prelude.{◌≡◌, ◌≤◌, get_or};
ghost use Rattle.dpa.specs.Lists.{all_below};
ghost use Rattle.dpa.specs.Settings.{max_lamps};
ghost use Rattle.lights.specs.Lamp.{off, lamp_ok};
ghost use Rattle.node.specs.Node.{read_only_of, node_from_parts, lamps_ok, node_ok, node_seen};

use dpa::refusal::{NONE, Refusal};
use dpa::settings::{Settings, settings_ok};
use dpa::sizes::RAM_SIZE;
use lights::lamp::{LAMPS, Lamp, lamp_ok, lamp_zero};

// C interface (`grelfint_node`): the array has all lamps, and the settings have their count.
#[repr(C)]
#[derive(Clone, Copy)]
pub struct Node {
    pub settings: Settings,
    pub lamps: [Lamp; LAMPS],
    pub ram: [u8; RAM_SIZE],
}

// The part of a node that a request only reads. Another field that requests leave alone is a field here.
#[derive(Clone, Copy)]
pub struct ReadOnly {
    pub settings: Settings,
}

impl From<Node> for ReadOnly {
    ghost from_gives = { λ node fixed. fixed ≡ read_only_of node };

    fn from(node: Node) -> ReadOnly {
        ReadOnly {
            settings: node.settings,
        }
    }
}

impl ReadOnly {
    // The node with the lamps and the RAM that a request left.
    pub fn node(self, lamps: [Lamp; LAMPS], ram: [u8; RAM_SIZE]) -> Node
        ensures { result ≡ node_from_parts self lamps ram }
    {
        Node {
            settings: self.settings,
            lamps,
            ram,
        }
    }
}

// What C gets: a refusal number and the node.
#[repr(C)]
#[derive(Clone, Copy)]
pub struct NodeAnswer {
    pub refusal: u8,
    pub node: Node,
}

impl NodeAnswer {
    // The answer of a call that leaves the node as it was if it is refused.
    pub fn after(node: Node, outcome: Result<Node, Refusal>) -> NodeAnswer
        ensures { result ≡ node_seen node outcome }
    {
        match outcome {
            Ok(node) => NodeAnswer {
                refusal: NONE,
                node,
            },
            Err(refusal) => NodeAnswer {
                refusal: u8::from(refusal),
                node,
            },
        }
    }
}

// Returns whether every lamp follows the rule of an implemented one; a lamp of zeros follows it too. The loop has no early exit and always
// the same length, so that it can be vectorized.
#[tactic(auto, using(dpa::proofs::Bool::all_below_next), unfolding(dpa::specs::Lists::all_below))]
fn each_ok(lamps: [Lamp; LAMPS]) -> bool
    ensures { result ≡ all_below max_lamps (λ k. lamp_ok (get_or lamps k off)) }
{
    let mut ok = true;
    for lamp in lamps {
        ok &= lamp_ok(lamp);
    }
    ok
}

// Returns whether every lamp follows the rule for its place: lamps from the count on are zero.
fn lamps_ok(count: usize, lamps: [Lamp; LAMPS]) -> bool
    requires { count ≤ max_lamps }
    ensures { result ≡ lamps_ok count lamps }
{
    let mut ok = each_ok(lamps);
    for lamp in &lamps[count..] {
        ok &= lamp_zero(*lamp);
    }
    ok
}

// Returns whether a node follows the node rule.
#[tactic(auto, using(crate::proofs::Nodes::shape_test, dpa::proofs::Ranges::settings_facts), unfolding(crate::specs::Node::node_ok))]
pub fn node_ok(node: Node) -> bool
    ensures { result ≡ node_ok node }
{
    settings_ok(node.settings) && lamps_ok(usize::from(node.settings.lamp_count), node.lamps)
}
