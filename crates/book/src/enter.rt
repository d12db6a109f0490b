// Any command: each kind by its own method. Whoever enters a list of commands tests once whether the book is sound.
ghost use Rattle.std.specs.Prelude.{◌≡◌, true};
ghost use Rattle.book.specs.Enter.{EntersIn, entry_of};
ghost use Rattle.book.specs.Sound.{sound as sound_of};

use crate::{Book, Entry};
use book_memory::lent::LentMut;
use commands::entries::Command;
use rules::answer::Answer;

impl Book {
    // Enters a command.
    pub fn enter(mut self, c: Command, memory: &mut LentMut<'_>) -> Entry
        ensures { EntersIn self memory.old c result memory.new }
    {
        let sound = self.sound();
        let answer = self.enter_command(sound, c, memory);
        Entry { answer, book: self }
    }

    // The same for a sound book, as each is that a list of commands leaves: 11 is not tested again.
    pub fn enter_known(mut self, c: Command, memory: &mut LentMut<'_>) -> Entry
        requires { sound_of self ≡ true }
        ensures { EntersIn self memory.old c result memory.new }
    {
        let answer = self.enter_command(true, c, memory);
        Entry { answer, book: self }
    }

    // The same where it is known whether the book is sound: the answer, and the book changed where it stands. Flag and clause go beside the book here and in
    // each entry: a struct of them would hold a `&mut Book`, and each function would promise besides that it is still the caller's book.
    fn enter_command(&mut self, sound: bool, c: Command, memory: &mut LentMut<'_>) -> Answer
        requires { sound ≡ sound_of self.old }
        ensures { EntersIn self.old memory.old c (entry_of result self.new) memory.new }
    {
        let room = memory.read().room();
        match c {
            Command::Contract(k) => self.enter_contract(sound, k, memory),
            Command::Date(d) => self.enter_date(sound, d, memory),
            Command::Window(w) => self.enter_window(sound, w, room),
            Command::Instruction(i) => self.enter_instruction(sound, i, room),
            Command::Default(d) => self.enter_default(sound, d, room),
            Command::Reading(r) => self.enter_reading(sound, r, memory),
            Command::Revision(v) => self.enter_revision(sound, v, memory),
            Command::Close => self.enter_close(sound, room),
        }
    }
}
