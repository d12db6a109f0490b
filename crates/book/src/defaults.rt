// Defaults.
ghost use Rattle.std.specs.Prelude.{◌≡◌};
ghost use Rattle.book.specs.Enter.{AnswersAt, EntersAt, entry_of};
ghost use Rattle.book.specs.Sound.{sound as sound_of};

use crate::{Book, Entry};
use book_refusal::defaults::default_refusal;
use commands::entries::{Command, Default};
use rules::answer::Answer;

impl Book {
    // Enters a default, with so much room in lent memory.
    pub fn default(mut self, d: Default, room: usize) -> Entry
        ensures { EntersAt self room (Command.Default d) result }
    {
        let sound = self.sound();
        let answer = self.enter_default(sound, d, room);
        Entry { answer, book: self }
    }

    // The same where it is known whether the book is sound.
    pub(crate) fn enter_default(&mut self, sound: bool, d: Default, room: usize) -> Answer
        requires { sound ≡ sound_of self.old }
        ensures { EntersAt self.old room (Command.Default d) (entry_of result self.new) }
    {
        self.default_asked(sound, d, room)?;
        let n = self.ndefaults;
        self.defaults[n] = d;
        self.ndefaults = n + 1;
        Ok(())
    }

    // What it is answered.
    #[tactic(auto, using(crate::proofs::Asked::answered))]
    fn default_asked(&self, sound: bool, d: Default, room: usize) -> Answer
        requires { sound ≡ sound_of self.now }
        ensures { AnswersAt self.now room (Command.Default d) result }
    {
        d.input_refusal()?;
        self.first_refusal(sound, room)?;
        let windows = &self.windows[..self.nwindows];
        let defaults = &self.defaults[..self.ndefaults];
        default_refusal(self.span(), windows, defaults, d)
    }
}
