// The gateway's side of a request: how long it takes, and its confirmation.
#![tactic(auto)]

pub mod confirm;
pub mod slot;
