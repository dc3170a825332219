// A lamp after a power entry.
ghost use Rattle.std.specs.Prelude.{◌≡◌};
ghost use Rattle.lights.specs.Lights.{command_of, command_read, new_level, with_timer, lamp_after};

use crate::lamp::{Lamp, MAX_LEVEL};
use crate::power::KEEP;
use crate::request::{LOWER, RAISE, SET};
use dpa::error::ErrN;

#[derive(Clone, Copy)]
pub enum Command {
    Set,
    Raise,
    Lower,
}

// The command of a PCMD.
impl TryFrom<u8> for Command {
    type Error = ErrN;

    ghost try_from_gives = { λ pcmd outcome. outcome ≡ command_read pcmd };

    #[tactic(auto, unfolding(crate::specs::Lights::command_read, crate::specs::Lights::command_of))]
    fn try_from(pcmd: u8) -> Result<Command, ErrN> {
        match pcmd {
            SET => Ok(Command::Set),
            RAISE => Ok(Command::Raise),
            LOWER => Ok(Command::Lower),
            _ => Err(ErrN::Pcmd),
        }
    }
}

// The command of a PCMD up to LOWER.
#[tactic(auto, unfolding(crate::specs::Lights::command_read, crate::specs::Lights::command_of))]
pub fn command_of(pcmd: u8) -> Command
    ensures { result ≡ command_of pcmd }
{
    Command::try_from(pcmd).unwrap_or(Command::Lower)
}

// Raise and lower start from the requested level and stay within 0 to 100.
fn new_level(command: Command, level: u8, power: u8) -> u8
    ensures { result ≡ new_level command level power }
{
    match command {
        Command::Set => power,
        Command::Raise => {
            let sum = usize::from(level) + usize::from(power);
            sum.min(usize::from(MAX_LEVEL)) as u8
        }
        Command::Lower => level.saturating_sub(power),
    }
}

// The lamp with a level and a time for it, 0 for none. No timer runs at level 0.
fn with_timer(mut lamp: Lamp, level: u8, seconds: u16) -> Lamp
    ensures { result ≡ with_timer lamp level seconds }
{
    lamp.level = level;
    lamp.seconds = if level == 0 { 0 } else { seconds };
    lamp
}

// The lamp after a power entry. Keep leaves the level whatever the command is, and without a time the timer too.
#[tactic(auto, unfolding(crate::specs::Lights::lamp_after))]
pub fn lamp_after(command: Command, lamp: Lamp, power: u8, seconds: u16) -> Lamp
    ensures { result ≡ lamp_after command lamp power seconds }
{
    if power != KEEP {
        let level = new_level(command, lamp.level, power);
        return with_timer(lamp, level, seconds);
    }
    if seconds == 0 {
        return lamp;
    }
    with_timer(lamp, lamp.level, seconds)
}
