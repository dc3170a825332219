// The check byte of a frame on the serial line.
#![tactic(auto)]

pub mod check_byte;
