// FRC: two bits from each node, which answer a question about one of its lamps.
ghost use Rattle.std.specs.Prelude.{◌≡◌, true, ◌<◌};
ghost use Rattle.dpa.specs.Settings.{max_lamps};
ghost use Rattle.node.specs.Node.{node_ok};
ghost use Rattle.node.specs.Frc.{command_read, value_number, two_bits, bit_set, asked_lamp, is_on, frc_of, frc_seen};

use crate::record::{Node, node_ok};
use dpa::pnum;
use dpa::refusal::{NONE, Refusal};
use lights::rounding::Rounding;

// The numbers of the commands.
pub const ON: u8 = 0x10;

pub const ALARM: u8 = 0x11;

// The lamp is in the low five bits of a byte.
const LAMP_INDEX_RANGE: u8 = 32;

// A command: is the lamp on, and is its alarm set?
#[derive(Clone, Copy)]
pub enum Command {
    On,
    Alarm,
}

// The number of no command.
#[derive(Clone, Copy)]
pub struct UnknownCommand(pub u8);

impl TryFrom<u8> for Command {
    type Error = UnknownCommand;

    ghost try_from_gives = { λ number outcome. outcome ≡ command_read number };

    fn try_from(number: u8) -> Result<Command, UnknownCommand> {
        match number {
            ON => Ok(Command::On),
            ALARM => Ok(Command::Alarm),
            _ => Err(UnknownCommand(number)),
        }
    }
}

// The two bits: the command or the lamp is not implemented, no, yes.
#[derive(Clone, Copy)]
pub enum FrcValue {
    NotImplemented = 1,
    No = 2,
    Yes = 3,
}

impl From<FrcValue> for u8 {
    ghost from_gives = { λ value number. number ≡ value_number value };

    fn from(value: FrcValue) -> u8 {
        value as u8
    }
}

impl From<bool> for FrcValue {
    ghost from_gives = { λ yes value. value_number value ≡ two_bits yes };

    fn from(yes: bool) -> FrcValue {
        if yes { FrcValue::Yes } else { FrcValue::No }
    }
}

// What C gets: a refusal number and the two bits, 0 if the call is refused.
#[repr(C)]
#[derive(Clone, Copy)]
pub struct FrcAnswer {
    pub refusal: u8,
    pub value: u8,
}

impl From<Result<FrcValue, Refusal>> for FrcAnswer {
    ghost from_gives = { λ outcome answer. answer ≡ frc_seen outcome };

    fn from(outcome: Result<FrcValue, Refusal>) -> FrcAnswer {
        match outcome {
            Ok(value) => FrcAnswer {
                refusal: NONE,
                value: u8::from(value),
            },
            Err(refusal) => FrcAnswer {
                refusal: u8::from(refusal),
                value: 0,
            },
        }
    }
}

#[tactic(auto, unfolding(crate::specs::Frc::bit_set))]
fn bit_set(mask: u32, bit: u8) -> bool
    requires { bit < max_lamps }
    ensures { result ≡ bit_set mask bit }
{
    (mask >> bit) % 2 == 1
}

// Returns the lamp that the user data asks about, if it is one of this node's. User data is PNUM, then the lamp in the low five bits of a
// byte.
fn asked_lamp(count: u8, user_data: &[u8]) -> Option<u8>
    ensures { result ≡ asked_lamp count user_data.now }
{
    let [peripheral, lamp, ..] = user_data else {
        return None;
    };
    let index = *lamp % LAMP_INDEX_RANGE;
    if *peripheral == pnum::LIGHTS && index < count {
        Some(index)
    } else {
        None
    }
}

// Whether a lamp is on. A lamp that is stuck on counts too.
#[tactic(auto, using(crate::proofs::Nodes::node_settings, crate::proofs::Nodes::node_levels_in_range), unfolding(crate::specs::Frc::is_on))]
fn is_on(node: Node, index: u8, stuck: u32) -> bool
    requires { (node_ok node ≡ true) × (index < max_lamps) }
    ensures { result ≡ is_on node index stuck }
{
    let lamp = node.lamps[usize::from(index)];
    Rounding::new(node.settings).actual_level(lamp.level) != 0 || bit_set(stuck, index)
}

// Answers a command: whether a lamp is on or stuck, or whether its alarm is set.
#[tactic(auto, unfolding(crate::specs::Frc::frc_of, crate::specs::Frc::frc_value, crate::specs::Frc::asks_lamp, crate::specs::Frc::is_command))]
pub fn frc(
    node: Node,
    command: u8,
    user_data: &[u8],
    stuck: u32,
    alarm: u32,
) -> Result<FrcValue, Refusal>
    ensures { frc_seen result ≡ frc_of node command user_data.now stuck alarm }
{
    if !node_ok(node) {
        return Err(Refusal::Node);
    }
    let Ok(command) = Command::try_from(command) else {
        return Ok(FrcValue::NotImplemented);
    };
    let Some(index) = asked_lamp(node.settings.lamp_count, user_data) else {
        return Ok(FrcValue::NotImplemented);
    };
    let yes = match command {
        Command::On => is_on(node, index, stuck),
        Command::Alarm => bit_set(alarm, index),
    };
    Ok(FrcValue::from(yes))
}
