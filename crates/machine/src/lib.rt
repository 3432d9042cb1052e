// The step and the run of a hardened table.
#![tactic(auto)]

pub mod map;
pub mod run;
pub mod step;
pub mod table;
