// Steps joined into batch entries, and the bytes of an entry.
#![tactic(auto)]

pub mod entry;
pub mod join;
pub mod power;
pub mod write;
