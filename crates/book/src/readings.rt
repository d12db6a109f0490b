// Readings of either kind.
ghost use Rattle.std.specs.Prelude.{◌≡◌};
ghost use Rattle.commands.specs.Command.{revised_as};
ghost use Rattle.commands.specs.Input.{input_refusal};
ghost use Rattle.book_memory.specs.Lent.{held};
ghost use Rattle.book.specs.Enter.{AnswersTo, EntersIn, entry_of};
ghost use Rattle.book.specs.Sound.{sound as sound_of};

use crate::{Book, Entry};
use book_memory::lent::{Lent, LentMut};
use book_memory::taking::put_reading;
use book_refusal::readings::reading_refusal;
use commands::contract::Contract;
use commands::entries::{Command, Reading, Revision};
use rules::answer::Answer;

impl Book {
    // Enters a reading.
    pub fn reading(mut self, r: Reading, memory: &mut LentMut<'_>) -> Entry
        ensures { EntersIn self memory.old (Command.Reading r) result memory.new }
    {
        let sound = self.sound();
        let answer = self.enter_reading(sound, r, memory);
        Entry { answer, book: self }
    }

    // Enters a reading that was sent again.
    pub fn revision(mut self, v: Revision, memory: &mut LentMut<'_>) -> Entry
        ensures { EntersIn self memory.old (Command.Revision v) result memory.new }
    {
        let sound = self.sound();
        let answer = self.enter_revision(sound, v, memory);
        Entry { answer, book: self }
    }

    // Each of them where it is known whether the book is sound: one for each kind, since a revision's operands include its number.
    pub(crate) fn enter_reading(
        &mut self,
        sound: bool,
        r: Reading,
        memory: &mut LentMut<'_>,
    ) -> Answer
        requires { sound ≡ sound_of self.old }
        ensures { EntersIn self.old memory.old (Command.Reading r) (entry_of result self.new) memory.new }
    {
        r.input_refusal()?;
        self.meter(sound, Contract::PLAIN, r, memory)
    }

    pub(crate) fn enter_revision(
        &mut self,
        sound: bool,
        v: Revision,
        memory: &mut LentMut<'_>,
    ) -> Answer
        requires { sound ≡ sound_of self.old }
        ensures { EntersIn self.old memory.old (Command.Revision v) (entry_of result self.new) memory.new }
    {
        v.input_refusal()?;
        self.meter(sound, v.number, v.reading, memory)
    }

    // A reading of any revision whose operands are not turned down. It changes lent memory alone. Number, reading and clause as in `book_memory::taking`.
    fn meter(&mut self, sound: bool, number: u8, r: Reading, memory: &mut LentMut<'_>) -> Answer
        requires { (sound ≡ sound_of self.old) × (input_refusal (revised_as number r) ≡ 0) }
        ensures { EntersIn self.old memory.old (revised_as number r) (entry_of result self.new) memory.new }
    {
        self.reading_asked(sound, number, r, memory.read())?;
        put_reading(number, r, memory);
        Ok(())
    }

    // What it is answered.
    fn reading_asked(&self, sound: bool, number: u8, r: Reading, memory: Lent<'_>) -> Answer
        requires { (sound ≡ sound_of self.now) × (input_refusal (revised_as number r) ≡ 0) }
        ensures { AnswersTo self.now (held memory.entry) (revised_as number r) result }
    {
        self.first_refusal(sound, memory.room())?;
        reading_refusal(self.span(), number, r, memory)
    }
}
