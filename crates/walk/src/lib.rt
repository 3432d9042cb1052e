// Walking the rows inside a function: they are checked, and the links of its ifs and loops are filled.
#![tactic(auto)]

pub mod answer;
pub mod limit;
pub mod link;
pub mod parts;
