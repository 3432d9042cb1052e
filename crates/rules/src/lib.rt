// The types that the definitions and the code share, what reads a word, and the numbers of the causes.
#![tactic(auto)]

pub mod answer;
pub mod bytes;
pub mod computed;
pub mod ending;
pub mod kind;
pub mod limits;
pub mod number;
pub mod operands;
pub mod refusal;
pub mod step;
pub mod strike;
pub mod sums;
