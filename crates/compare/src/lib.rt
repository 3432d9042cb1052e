// Runs that keep no trace, but tell whether it is one that is known.
#![tactic(auto)]

pub mod narrow;
pub mod pieces;
pub mod spare;
