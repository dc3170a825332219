// Compiles scenes into batch and selective batch requests.
#![tactic(auto)]

pub mod compile;
