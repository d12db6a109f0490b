// Settling a book into records of lines: records that the caller lends, or its own.
#![tactic(auto)]

use rules::statement::{LISTED_MOST, Line, Statement};

pub mod lent;
pub mod listed;

// A statement with its lines in memory of its own.
#[derive(Clone, Copy)]
pub struct Listing {
    pub statement: Statement,
    pub lines: [Line; LISTED_MOST],
}
