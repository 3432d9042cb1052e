// Checking a source table: its verdict, and the links of an accepted one.
#![tactic(auto)]

pub mod check;
pub mod links;
