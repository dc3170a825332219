// What a program reads and writes: numbers in its arguments, its input, and its output.
#![tactic(auto)]

pub mod failure;
pub mod input;
pub mod number;
pub mod print;
