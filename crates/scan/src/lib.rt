// A pass over rows, one at a time: what is open at a row, and what a row of each kind does to it.
#![tactic(auto)]

pub mod open;
