// The close.
ghost use Rattle.std.specs.Prelude.{◌≡◌};
ghost use Rattle.book.specs.Enter.{EntersAt, entry_of};
ghost use Rattle.book.specs.Sound.{sound as sound_of};

use crate::{Book, Entry};
use commands::entries::Command;
use rules::answer::Answer;

impl Book {
    // Enters a close, with so much room in lent memory.
    pub fn close(mut self, room: usize) -> Entry
        ensures { EntersAt self room Command.Close result }
    {
        let sound = self.sound();
        let answer = self.enter_close(sound, room);
        Entry { answer, book: self }
    }

    // The same where it is known whether the book is sound.
    pub(crate) fn enter_close(&mut self, sound: bool, room: usize) -> Answer
        requires { sound ≡ sound_of self.old }
        ensures { EntersAt self.old room Command.Close (entry_of result self.new) }
    {
        self.first_refusal(sound, room)?;
        self.closed = true;
        Ok(())
    }
}
