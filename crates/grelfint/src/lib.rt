// The C interface. Each call has the contract of the call that it forwards to.
#![tactic(auto)]

pub mod gateways;
pub mod nodes;
pub mod requests;
pub mod scenes;
pub mod serial;
pub mod timings;
