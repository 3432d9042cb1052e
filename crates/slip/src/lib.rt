// What a small jump amounts to (02, No. 6): the row whose do it leaves out or does twice.
#![tactic(auto)]

pub mod amount;
pub mod find;
