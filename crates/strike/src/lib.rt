// Whole runs of hardened tables, and what may strike them.
#![tactic(auto)]

pub mod struck;
pub mod table;
