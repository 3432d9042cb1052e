// The rows of a source table, one at a time: the kind and the fields that their bytes say, and the bytes put into a buffer.
#![tactic(auto)]

pub mod dos;
pub mod first;
mod fits;
pub mod kind;
pub mod row;

// A row's bytes, and the last of them.
pub const WIDTH: usize = 6;

pub const LAST: usize = WIDTH - 1;
