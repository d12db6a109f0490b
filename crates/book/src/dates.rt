// The date.
ghost use Rattle.std.specs.Prelude.{◌≡◌};
ghost use Rattle.book_memory.specs.Lent.{held};
ghost use Rattle.book.specs.Enter.{AnswersTo, EntersIn, entry_of};
ghost use Rattle.book.specs.Sound.{sound as sound_of};

use crate::{Book, Entry};
use book_memory::gained::mark_gained;
use book_memory::lent::{Lent, LentMut};
use book_memory::unread::any_reading;
use book_refusal::any::any_refusal;
use book_refusal::dates::{cells_for_date, date_refusal};
use calendar::Date;
use commands::entries::{Command, date_input_refusal};
use rules::answer::Answer;

impl Book {
    // Enters a date.
    pub fn date(mut self, d: Date, memory: &mut LentMut<'_>) -> Entry
        ensures { EntersIn self memory.old (Command.Date d) result memory.new }
    {
        let sound = self.sound();
        let answer = self.enter_date(sound, d, memory);
        Entry { answer, book: self }
    }

    // The same where it is known whether the book is sound. The hour that a month gains is marked, and cleared of revisions.
    pub(crate) fn enter_date(&mut self, sound: bool, d: Date, memory: &mut LentMut<'_>) -> Answer
        requires { sound ≡ sound_of self.old }
        ensures { EntersIn self.old memory.old (Command.Date d) (entry_of result self.new) memory.new }
    {
        self.date_asked(sound, d, memory.read())?;
        mark_gained(d, memory);
        self.date = d;
        Ok(())
    }

    // What it is answered.
    #[tactic(auto, using(crate::proofs::Asked::answered))]
    fn date_asked(&self, sound: bool, d: Date, memory: Lent<'_>) -> Answer
        requires { sound ≡ sound_of self.now }
        ensures { AnswersTo self.now (held memory.entry) (Command.Date d) result }
    {
        date_input_refusal(d)?;
        let short = memory.room() < cells_for_date(self.cells(), self.contract, d);
        any_refusal(sound, self.closed, self.agreed, false, short)?;
        let read = any_reading(memory.meter, self.span());
        date_refusal(
            self.date,
            self.nwindows,
            self.ninstructions,
            read,
            self.contract,
            d,
        )
    }
}
