// The actual levels of a node's lamps.
ghost use Rattle.std.specs.Prelude.{◌≡◌};
ghost use Rattle.lights.specs.Lamp.{LevelsInRange};
ghost use Rattle.node.specs.Node.{actual_levels, levels_of, levels_seen};

use crate::record::{Node, node_ok};
use dpa::refusal::{NONE, Refusal};
use lights::lamp::{LAMPS, Lamp};
use lights::rounding::Rounding;

// What C gets: a refusal number and the levels, zeros if the call is refused.
#[repr(C)]
#[derive(Clone, Copy)]
pub struct LevelsAnswer {
    pub refusal: u8,
    pub levels: [u8; LAMPS],
}

impl From<Result<[u8; LAMPS], Refusal>> for LevelsAnswer {
    ghost from_gives = { λ outcome answer. answer ≡ levels_seen outcome };

    fn from(outcome: Result<[u8; LAMPS], Refusal>) -> LevelsAnswer {
        match outcome {
            Ok(levels) => LevelsAnswer {
                refusal: NONE,
                levels,
            },
            Err(refusal) => LevelsAnswer {
                refusal: u8::from(refusal),
                levels: [0; LAMPS],
            },
        }
    }
}

#[tactic(auto, using(crate::proofs::Maps::map_done), unfolding(crate::specs::Node::actual_levels))]
fn each_level(rounding: Rounding, lamps: [Lamp; LAMPS]) -> [u8; LAMPS]
    requires { LevelsInRange lamps }
    ensures { result ≡ actual_levels rounding.settings lamps }
{
    let mut levels = [0; LAMPS];
    // By index: a loop over `lamps.iter().enumerate()` is not vectorized and takes four times as long.
    for i in 0..LAMPS {
        let lamp = lamps[i];
        levels[i] = rounding.actual_level(lamp.level);
    }
    levels
}

// Returns the actual level of each lamp.
#[tactic(auto, using(crate::proofs::Nodes::node_settings, crate::proofs::Nodes::node_levels_in_range), unfolding(crate::specs::Node::levels_of))]
pub fn actual_levels(node: Node) -> Result<[u8; LAMPS], Refusal>
    ensures { levels_seen result ≡ levels_of node }
{
    if !node_ok(node) {
        return Err(Refusal::Node);
    }
    Ok(each_level(Rounding::new(node.settings), node.lamps))
}
