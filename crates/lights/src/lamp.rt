// One lamp: its valid values, and its timer.
ghost use Rattle.std.specs.Prelude.{◌≡◌};
ghost use Rattle.lights.specs.Lamp.{lamp_ok, lamp_zero, tick_lamp};

use dpa::settings::MAX_LAMPS;

// Lamp records in a node. Those at and above the lamp count are unused.
pub const LAMPS: usize = MAX_LAMPS as usize;

// The highest level.
pub const MAX_LEVEL: u8 = 100;

// The longest timer: 127 minutes.
pub const MAX_SECONDS: u16 = 7620;

// C interface (`grelfint_lamp`): the fields, so that 0 seconds stand for no timer.
#[repr(C)]
#[derive(Clone, Copy, Default)]
pub struct Lamp {
    // The requested level, 0 to 100.
    pub level: u8,
    // Seconds until the lamp turns off; 0 when no timer is running.
    pub seconds: u16,
}

// Whether an implemented lamp has valid values. It has no branches, so that a loop over lamps can be vectorized.
#[tactic(auto, unfolding(crate::specs::Lamp::lamp_ok))]
pub fn lamp_ok(lamp: Lamp) -> bool
    ensures { result ≡ lamp_ok lamp }
{
    (lamp.level <= MAX_LEVEL)
        & (lamp.seconds <= MAX_SECONDS)
        & ((lamp.level != 0) | (lamp.seconds == 0))
}

// Whether an unimplemented lamp has valid values: all zero. It has no branches either.
#[tactic(auto, unfolding(crate::specs::Lamp::lamp_zero))]
pub fn lamp_zero(lamp: Lamp) -> bool
    ensures { result ≡ lamp_zero lamp }
{
    (lamp.level == 0) & (lamp.seconds == 0)
}

// The lamp one second later.
#[tactic(auto, unfolding(crate::specs::Lamp::tick_lamp))]
pub fn tick_lamp(lamp: Lamp) -> Lamp
    ensures { result ≡ tick_lamp lamp }
{
    match lamp.seconds {
        0 => lamp,
        1 => Lamp::default(),
        seconds => Lamp {
            seconds: seconds - 1,
            ..lamp
        },
    }
}
