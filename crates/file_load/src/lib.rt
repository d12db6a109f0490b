// Whole unit files and pieces of them, read and entered.
#![tactic(auto)]

pub mod file;
