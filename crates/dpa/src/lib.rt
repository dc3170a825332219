// What every other crate shares: two-byte numbers, the header of a frame, peripheral numbers, ErrN, refusals, memory sizes, a node's
// settings, sets of nodes, and the answer of a call that writes a buffer.
#![tactic(auto)]

pub mod answer;
pub mod copy;
pub mod error;
pub mod frame;
pub mod node_set;
pub mod number;
pub mod pnum;
pub mod refusal;
pub mod settings;
pub mod sizes;
