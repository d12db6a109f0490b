// What a command meets at a book: each function on the few things of the book that it needs.
#![tactic(auto)]

pub mod any;
pub mod dates;
pub mod defaults;
pub mod instructions;
pub mod readings;
pub mod windows;
