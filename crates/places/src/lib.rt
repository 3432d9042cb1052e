// The places of the running function, each settled by one test (02, No. 4).
#![tactic(auto)]

pub mod across;
pub mod count;
pub mod wide;
