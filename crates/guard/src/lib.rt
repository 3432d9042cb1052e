// What the guards of a hardened table check and change: the counters of the open functions, and the lines that are no dos.
#![tactic(auto)]

pub mod call;
pub mod checks;
pub mod counters;
pub mod ret;
