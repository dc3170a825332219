// Scene books: where the scenes are, whether the book is well formed, and the bytes of its steps.
#![tactic(auto)]

pub mod check;
pub mod locations;
pub mod step;
