// The node: start, tick, actual levels and FRC.
ghost use Rattle.std.specs.Prelude.{◌≡◌};
ghost use Rattle.node.specs.Node.{start_of, tick_of, levels_of};
ghost use Rattle.node.specs.Frc.{frc_of};

use dpa::refusal::status_of;
use dpa::settings::Settings;
use node::frc::{FrcAnswer, frc};
use node::levels::{LevelsAnswer, actual_levels};
use node::record::{Node, NodeAnswer};
use node::start::start_answer;
use node::tick::{tick_answer, tick_in_place};

#[unsafe(no_mangle)]
pub extern "C" fn grelfint_start(settings: Settings) -> NodeAnswer
    ensures { result ≡ start_of settings }
{
    start_answer(settings)
}

#[unsafe(no_mangle)]
pub extern "C" fn grelfint_tick(node: Node) -> NodeAnswer
    ensures { result ≡ tick_of node }
{
    tick_answer(node)
}

// Changes the node in the caller's memory.
#[unsafe(no_mangle)]
pub extern "C" fn grelfint_tick_in_place(node: &mut Node) -> u8
    ensures { (result ≡ (tick_of node.old).refusal) × (node.new ≡ (tick_of node.old).node) }
{
    status_of(tick_in_place(node))
}

#[unsafe(no_mangle)]
pub extern "C" fn grelfint_actual_levels(node: Node) -> LevelsAnswer
    ensures { result ≡ levels_of node }
{
    actual_levels(node).into()
}

#[unsafe(no_mangle)]
pub extern "C" fn grelfint_frc(
    node: Node,
    command: u8,
    user_data: &[u8],
    stuck: u32,
    alarm: u32,
) -> FrcAnswer
    ensures { result ≡ frc_of node command user_data.now stuck alarm }
{
    frc(node, command, user_data, stuck, alarm).into()
}
