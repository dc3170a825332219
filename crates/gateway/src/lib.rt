// The gateway's bookkeeping: which addresses are bonded, and a send queue, in which requests wait until they may be sent.
#![tactic(auto)]

pub mod bonding;
pub mod record;
pub mod sending;
