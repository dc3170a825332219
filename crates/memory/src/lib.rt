// The node's three memories: their sizes and block rule, read and write requests, and the read view.
#![tactic(auto)]

pub mod block;
pub mod request;
pub mod view;
