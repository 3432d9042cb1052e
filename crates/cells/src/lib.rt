// The map of a function: for each pair of its places the worst that any strike of the pair ended with.
#![tactic(auto)]

pub mod column;
pub mod rank;
pub mod struck;
