// The answer to a request: the HWPID, the peripherals with the OS, and what is still to be changed. Node and memories are only read.
#![tactic(auto)]

pub mod answer;
pub mod os;
