// The effect of a request, once its answer is found: the changes of the memories and of the lamps.
#![tactic(auto)]

pub mod apply;
pub mod lamps;
pub mod run;
pub mod walk;
