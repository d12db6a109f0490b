// The tests on the tables of a book, each on its own: what 11 asks of them.
#![tactic(auto)]

pub mod agreed;
pub mod agreement;
pub mod defaults;
pub mod instructions;
pub mod unused;
pub mod windows;
