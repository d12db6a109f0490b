// The unit file's format: numbers of a few bytes, and the table of commands.
#![tactic(auto)]

pub mod number;
pub mod table;
