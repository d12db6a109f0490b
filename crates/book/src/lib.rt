// The book of one unit: what has been entered, by value, and one method for each entry.
//
// Each method asks what its entry meets at the book, and where that is nothing puts it: into the book, and a contract's and a date's marks and
// a reading into lent memory. It first tests whether the book is sound (11). Whoever enters a list of commands tests once and goes by `enter_known`,
// which is the same code; a reading among them goes by `book_memory::taking`, which is not handed the book.
//
// Windows, instructions and defaults have a method each, as document 01 asks; one over a trait of tables would name the same three steps anew.
#![tactic(auto)]

mod answers;
mod closing;
mod contracts;
mod dates;
mod defaults;
mod empty;
mod enter;
mod instructions;
mod readings;
mod sound;
mod span;
mod windows;

use calendar::Date;
use commands::contract::Contract;
use commands::entries::{Default, Instruction, Window};
use rules::answer::Answer;

// The tables are in order of entry; unused entries are zeros. Arrays with counts, since there is no heap; a flag and zeros and no `Option`, since tests and a
// host's tables make books of any fields, and 11 asks of them.
#[derive(Clone, Copy)]
pub struct Book {
    // a contract has been taken
    pub agreed: bool,
    pub closed: bool,
    pub contract: Contract,
    // zeros where it has none
    pub date: Date,
    pub windows: [Window; 128],
    pub nwindows: usize,
    pub instructions: [Instruction; 64],
    pub ninstructions: usize,
    pub defaults: [Default; 128],
    pub ndefaults: usize,
}

// The book after a command, and whether the command was taken. No `Result`: a method of document 01 hands the book back under either answer.
#[derive(Clone, Copy)]
pub struct Entry {
    pub answer: Answer,
    pub book: Book,
}
