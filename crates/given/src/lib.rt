// A row as given (02, No. 1): what it is, what is open where it stands, which rows of the chain it stands for, and what is open after it.
#![tactic(auto)]

pub mod causes;
pub mod plan;
pub mod row;
pub mod sort;
pub mod span;
pub mod things;
