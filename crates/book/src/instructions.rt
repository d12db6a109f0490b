// Instructions.
ghost use Rattle.std.specs.Prelude.{◌≡◌};
ghost use Rattle.book.specs.Enter.{AnswersAt, EntersAt, entry_of};
ghost use Rattle.book.specs.Sound.{sound as sound_of};

use crate::{Book, Entry};
use book_refusal::instructions::instruction_refusal;
use commands::entries::{Command, Instruction};
use rules::answer::Answer;

impl Book {
    // Enters an instruction, with so much room in lent memory.
    pub fn instruction(mut self, i: Instruction, room: usize) -> Entry
        ensures { EntersAt self room (Command.Instruction i) result }
    {
        let sound = self.sound();
        let answer = self.enter_instruction(sound, i, room);
        Entry { answer, book: self }
    }

    // The same where it is known whether the book is sound.
    pub(crate) fn enter_instruction(&mut self, sound: bool, i: Instruction, room: usize) -> Answer
        requires { sound ≡ sound_of self.old }
        ensures { EntersAt self.old room (Command.Instruction i) (entry_of result self.new) }
    {
        self.instruction_asked(sound, i, room)?;
        let n = self.ninstructions;
        self.instructions[n] = i;
        self.ninstructions = n + 1;
        Ok(())
    }

    // What it is answered.
    #[tactic(auto, using(crate::proofs::Asked::answered))]
    fn instruction_asked(&self, sound: bool, i: Instruction, room: usize) -> Answer
        requires { sound ≡ sound_of self.now }
        ensures { AnswersAt self.now room (Command.Instruction i) result }
    {
        i.input_refusal()?;
        self.first_refusal(sound, room)?;
        let instructions = &self.instructions[..self.ninstructions];
        instruction_refusal(self.contract, self.span(), instructions, i)
    }
}
