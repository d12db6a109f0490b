// What every entry but a contract meets first.
ghost use Rattle.std.specs.Prelude.{◌≡◌, false, ltb};
ghost use Rattle.commands.specs.Refusals.{outcome};
ghost use Rattle.book_refusal.specs.Refusals.{any_refusal};
ghost use Rattle.book.specs.Book.{book_cells};

use crate::Book;
use book_refusal::any::any_refusal;
use rules::answer::Answer;

impl Book {
    // 11 to 15, with so much room in lent memory. A contract asks for room of its own.
    pub(crate) fn first_refusal(&self, sound: bool, room: usize) -> Answer
        ensures { result ≡ outcome (any_refusal 0 sound self.now.closed self.now.agreed false (ltb room (book_cells self.now))) }
    {
        let short = room < self.cells();
        any_refusal(sound, self.closed, self.agreed, false, short)
    }
}
