// What every run keeps from step to step: the registers, the functions that wait, the variables and the trace.
#![tactic(auto)]

pub mod answer;
pub mod machine;
pub mod open;
pub mod trace;
pub mod variables;
