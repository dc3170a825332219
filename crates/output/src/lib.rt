// The requests of a scene: entries filled into lists, and the bytes of the output.
#![tactic(auto)]

pub mod fill;
pub mod form;
pub mod list;
pub mod request;
pub mod spans;
