// The contract.
ghost use Rattle.std.specs.Prelude.{◌≡◌};
ghost use Rattle.commands.specs.Input.{input_refusal};
ghost use Rattle.book.specs.Enter.{EntersIn, entry_of};
ghost use Rattle.book.specs.Sound.{sound as sound_of};

use crate::{Book, Entry};
use book_memory::lent::LentMut;
use book_memory::mark;
use book_memory::revisions::clear;
use book_refusal::any::any_refusal;
use book_sound::agreement::span_of;
use commands::contract::Contract;
use commands::entries::Command;
use rules::answer::Answer;

impl Book {
    // Enters a contract.
    pub fn contract(mut self, k: Contract, memory: &mut LentMut<'_>) -> Entry
        ensures { EntersIn self memory.old (Command.Contract k) result memory.new }
    {
        let sound = self.sound();
        let answer = self.enter_contract(sound, k, memory);
        Entry { answer, book: self }
    }

    // The same where it is known whether the book is sound. The operands go through the contract's constructor.
    pub(crate) fn enter_contract(
        &mut self,
        sound: bool,
        k: Contract,
        memory: &mut LentMut<'_>,
    ) -> Answer
        requires { sound ≡ sound_of self.old }
        ensures { EntersIn self.old memory.old (Command.Contract k) (entry_of result self.new) memory.new }
    {
        let agreed = k.offer()?;
        self.agree(sound, agreed, memory)
    }

    // The same of a contract whose operands are not turned down. Its span is marked, and cleared of revisions.
    fn agree(&mut self, sound: bool, k: Contract, memory: &mut LentMut<'_>) -> Answer
        requires { (sound ≡ sound_of self.old) × (input_refusal (Command.Contract k) ≡ 0) }
        ensures { EntersIn self.old memory.old (Command.Contract k) (entry_of result self.new) memory.new }
    {
        let span = span_of(k);
        let short = memory.read().room() < span;
        any_refusal(sound, self.closed, self.agreed, true, short)?;
        mark(memory.meter, span);
        clear(memory.revisions, span);
        self.agreed = true;
        self.contract = k;
        Ok(())
    }
}
