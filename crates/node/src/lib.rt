// A node: its record and the rule for it, start, tick, actual levels, FRC.
#![tactic(auto)]

pub mod frc;
pub mod levels;
pub mod record;
pub mod start;
pub mod tick;
