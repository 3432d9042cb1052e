// What the programs share: how they begin, the words of a command line, reading lines of digits from standard input, and writing to
// standard output.
#![tactic(auto)]

mod failure;
pub mod input;
mod malformed;
pub mod number;
pub mod output;
pub mod page;
pub mod sheet;
pub mod standard_error;
pub mod start;
pub mod word;
