// The book before any command.
ghost use Rattle.std.specs.Prelude.{◌≡◌};
ghost use Rattle.book.specs.Book.{empty_book};

use crate::Book;
use calendar::Date;
use commands::contract::Contract;
use commands::entries::{Default, Instruction, Window};

impl Book {
    // A book without a contract, all zeros.
    #[tactic(auto, unfolding(crate::specs::Book::empty_book))]
    pub fn empty() -> Book
        ensures { result ≡ empty_book }
    {
        Book {
            agreed: false,
            closed: false,
            contract: Contract::NONE,
            date: Date {
                year: 0,
                month: 0,
                day: 0,
            },
            windows: [Window::NONE; 128],
            nwindows: 0,
            instructions: [Instruction::NONE; 64],
            ninstructions: 0,
            defaults: [Default::NONE; 128],
            ndefaults: 0,
        }
    }
}
