// Tables as text: lowercase hexadecimal digits, a row or a line of the table on a line of its own.
#![tactic(auto)]

pub mod read;
pub mod write;
