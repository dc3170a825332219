// The checksum of a code image in external memory, and the request that checks it.
#![tactic(auto)]

pub mod check;
pub mod sums;
