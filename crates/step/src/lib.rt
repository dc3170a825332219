// Steps: their kinds and their faults. The specs also define the step machine.
#![tactic(auto)]

pub mod fault;
pub mod kind;
