// Windows.
ghost use Rattle.std.specs.Prelude.{◌≡◌};
ghost use Rattle.book.specs.Enter.{AnswersAt, EntersAt, entry_of};
ghost use Rattle.book.specs.Sound.{sound as sound_of};

use crate::{Book, Entry};
use book_refusal::windows::window_refusal;
use commands::entries::{Command, Window};
use rules::answer::Answer;

impl Book {
    // Enters a window, with so much room in lent memory.
    pub fn window(mut self, w: Window, room: usize) -> Entry
        ensures { EntersAt self room (Command.Window w) result }
    {
        let sound = self.sound();
        let answer = self.enter_window(sound, w, room);
        Entry { answer, book: self }
    }

    // The same where it is known whether the book is sound.
    pub(crate) fn enter_window(&mut self, sound: bool, w: Window, room: usize) -> Answer
        requires { sound ≡ sound_of self.old }
        ensures { EntersAt self.old room (Command.Window w) (entry_of result self.new) }
    {
        self.window_asked(sound, w, room)?;
        let n = self.nwindows;
        self.windows[n] = w;
        self.nwindows = n + 1;
        Ok(())
    }

    // What it is answered.
    #[tactic(auto, using(crate::proofs::Asked::answered))]
    fn window_asked(&self, sound: bool, w: Window, room: usize) -> Answer
        requires { sound ≡ sound_of self.now }
        ensures { AnswersAt self.now room (Command.Window w) result }
    {
        w.input_refusal()?;
        self.first_refusal(sound, room)?;
        let windows = &self.windows[..self.nwindows];
        window_refusal(self.contract.service, self.span(), windows, w)
    }
}
