// The lines of a statement, one for each segment, from the contract's figures, the instructions, the table of live periods and meter memory. Whoever
// settles asks first whether every needed minute has a reading and how many lines there are (`survey`), then goes from line to line by a cursor.
#![tactic(auto)]

pub mod cursor;
