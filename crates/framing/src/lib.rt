// A message on the serial line: flag, escape and check byte, and the sender.
#![tactic(auto)]

pub mod escape;
pub mod frame;
