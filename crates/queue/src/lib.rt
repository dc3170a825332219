// The send queue: requests wait here until the air is free.
#![tactic(auto)]

pub mod places;
pub mod record;
pub mod rule;
pub mod updates;
