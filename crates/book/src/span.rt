// The minutes of a book's month, those that lent memory must have room for, and the span in which it takes readings.
ghost use Rattle.std.specs.Prelude.{◌≡◌};
ghost use Rattle.book.specs.Book.{book_span, book_cells};
ghost use Rattle.book.specs.Readings.{open_span};

use crate::Book;
use book_sound::agreement::full_span;
use calendar::lost;

impl Book {
    // The span: a March has an hour less than its cells.
    #[tactic(auto, unfolding(crate::specs::Book::book_span, crate::specs::Book::book_cells))]
    pub fn span(&self) -> usize
        ensures { result ≡ book_span self.now }
    {
        self.cells().saturating_sub(lost(self.date.month))
    }

    // The minutes that lent memory must have room for, as 15 asks.
    #[tactic(auto, unfolding(crate::specs::Book::book_cells))]
    pub fn cells(&self) -> usize
        ensures { result ≡ book_cells self.now }
    {
        full_span(self.contract, self.date.month)
    }

    // The span in which readings are taken into lent memory with so much room, 0 where none is. Only a contract, a date and a close change it.
    #[tactic(auto, unfolding(crate::specs::Readings::open_span))]
    pub fn open_span(&self, room: usize) -> usize
        ensures { result ≡ open_span self.now room }
    {
        let span = self.span();
        let cells = self.cells();
        if self.agreed & !self.closed & (cells <= room) {
            span
        } else {
            0
        }
    }
}
