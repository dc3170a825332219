// The lamps and the lights peripheral: set, raise, lower, enumerate.
#![tactic(auto)]

pub mod apply;
pub mod bitmap;
pub mod lamp;
pub mod levels;
pub mod power;
pub mod request;
pub mod rounding;
pub mod walk;
