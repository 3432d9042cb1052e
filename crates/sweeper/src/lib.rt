// The whole sweep of a hardened table (02, No. 4).
#![tactic(auto)]

pub mod call;
pub mod steps;
pub mod table;
pub mod unstruck;
pub mod walk;
