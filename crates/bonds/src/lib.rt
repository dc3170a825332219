// Bonded addresses: a bit for each address, as in a set of nodes.
#![tactic(auto)]

pub mod addresses;
