// The scene theorem and the worked examples; runs scenes on a node.
#![tactic(auto)]

pub mod run;
