// Running totals: what the rules give for the active minutes so far, one step for each minute, from its reading and the totals before it. A step
// looks at no meter memory, no window and no book: what it needs of the month is a table of numbers (`month`), worked out once from the book.
#![tactic(auto)]

mod minute;
pub mod month;
pub mod step;
pub mod totals;
