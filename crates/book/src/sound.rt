// 11: whether some list of commands, from the empty book, leaves a book.
ghost use Rattle.std.specs.Prelude.{◌≡◌};
ghost use Rattle.energy.specs.Lists.{pass};
ghost use Rattle.book.specs.Sound.{table_tests, empty_tests, sound};

use crate::Book;
use book_sound::agreed::agreed_sound;
use book_sound::agreement::{date_sound, is_no_contract};
use book_sound::unused::unused;
use commands::contract::Contract;
use commands::entries::{Default, Instruction, Window};

impl Book {
    // Whether some list of commands leaves this book.
    #[tactic(auto, unfolding(crate::specs::Sound::sound, energy::specs::Lists::pass))]
    pub fn sound(self) -> bool
        ensures { result ≡ sound self }
    {
        if !self.tables_sound() {
            return false;
        }
        if !self.agreed {
            return self.empty_sound();
        }
        if !date_sound(self.contract, self.date) {
            return false;
        }
        agreed_sound(
            self.contract,
            self.span(),
            &self.windows[..self.nwindows],
            &self.instructions[..self.ninstructions],
            &self.defaults[..self.ndefaults],
        )
    }

    // Counts within the tables, and zeros in the entries after them.
    #[tactic(auto, unfolding(crate::specs::Sound::table_tests, energy::specs::Lists::pass))]
    fn tables_sound(self) -> bool
        ensures { result ≡ pass (table_tests self) }
    {
        let within = (self.nwindows <= Contract::WINDOWS_MOST)
            & (self.ninstructions <= Contract::INSTRUCTIONS_MOST)
            & (self.ndefaults <= Contract::DEFAULTS_MOST);
        if !within {
            return false;
        }
        unused(&self.windows[self.nwindows..], &Window::NONE)
            & unused(&self.instructions[self.ninstructions..], &Instruction::NONE)
            & unused(&self.defaults[self.ndefaults..], &Default::NONE)
    }

    // Without a contract nothing is entered.
    #[tactic(auto, unfolding(crate::specs::Sound::empty_tests, energy::specs::Lists::pass))]
    fn empty_sound(self) -> bool
        ensures { result ≡ pass (empty_tests self) }
    {
        is_no_contract(self.contract)
            & self.date.is_none()
            & !self.closed
            & (self.nwindows == 0)
            & (self.ninstructions == 0)
            & (self.ndefaults == 0)
    }
}
