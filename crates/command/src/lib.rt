// The command lines of the programs `run` and `sweep`: what they ask for, or which word is wrong.
#![tactic(auto)]

pub mod arguments;
pub mod sweep_words;
mod word;
pub mod wrong;
