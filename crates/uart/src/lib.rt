// The receiver of the serial line: frames found in a stream that arrives in parts of any length.
#![tactic(auto)]

mod progress;
pub mod receive;
pub mod receiver;
