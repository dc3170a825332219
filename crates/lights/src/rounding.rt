// Rounding a requested level up to a multiple of the dimming step.
ghost use Rattle.std.specs.Prelude.{◌≡◌, true, ◌≤◌};
ghost use Rattle.dpa.specs.Settings.{settings_ok};
ghost use Rattle.lights.specs.Lamp.{max_level, actual_level, step_inverse};

use dpa::settings::Settings;

// The scale of a step's inverse.
const INVERSE_SCALE: u32 = 65536;

// What rounds levels by the settings of a node. It multiplies by the inverse of the step in place of dividing by the step: a division for
// each lamp is slow.
#[derive(Clone, Copy)]
pub struct Rounding {
    pub settings: Settings,
    inverse: u32,
    ghost settings_valid: { settings_ok settings ≡ true },
    ghost inverse_exact: { inverse ≡ step_inverse settings },
}

impl Rounding {
    #[tactic(auto, using(crate::proofs::Rules::for_new), unfolding(crate::specs::Lamp::step_inverse))]
    pub fn new(settings: Settings) -> Rounding
        requires { settings_ok settings ≡ true }
        ensures { result.settings ≡ settings }
    {
        let inverse = INVERSE_SCALE / u32::from(settings.step) + 1;
        Rounding { settings, inverse }
    }

    // The level that a lamp shows.
    #[tactic(auto, using(crate::proofs::Rules::for_actual_level), unfolding(crate::specs::Lamp::actual_level))]
    pub fn actual_level(self, level: u8) -> u8
        requires { level ≤ max_level }
        ensures { result ≡ actual_level self.settings level }
    {
        let step = u32::from(self.settings.step);
        let quotient = (u32::from(level) + (step - 1)) * self.inverse / INVERSE_SCALE;
        (quotient * step) as u8
    }
}
