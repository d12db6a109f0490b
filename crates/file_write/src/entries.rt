// What a book is written as: the entries of its tables and the readings in lent memory, as commands.
ghost use Rattle.std.specs.Prelude.{◌≡◌};
ghost use Rattle.commands.specs.Command.{revised_as};
ghost use Rattle.commands.specs.declared.entries.Command.{Command};
ghost use Rattle.commands.specs.declared.entries.Command.TheVariants.{Window as windowᶜ, Instruction as instructionᶜ, Default as defaultᶜ};

use commands::contract::Contract;
use commands::entries::{Command, Default, Instruction, Reading, Revision, Window};
use energy::units::{Kw, Minutes};

// An entry of a book's table, which is written as a command.
pub(crate) trait Entry: Copy {
    ghost as_command: { Self → Command };

    fn command(self) -> Command
        ensures { result ≡ as_command self };
}

impl Entry for Window {
    ghost as_command = { windowᶜ };

    fn command(self) -> Command {
        Command::Window(self)
    }
}

impl Entry for Instruction {
    ghost as_command = { instructionᶜ };

    fn command(self) -> Command {
        Command::Instruction(self)
    }
}

impl Entry for Default {
    ghost as_command = { defaultᶜ };

    fn command(self) -> Command {
        Command::Default(self)
    }
}

// The reading of a minute as a command: a plain one, or a revision with the number in the minute's byte.
pub(crate) fn reading_of(minute: Minutes, cell: i32, byte: u8) -> Command
    ensures { result ≡ revised_as byte (record { minute = minute; kw = record { 0 = cell } }) }
{
    let reading = Reading {
        minute,
        kw: Kw(i64::from(cell)),
    };
    if byte == Contract::PLAIN {
        return Command::Reading(reading);
    }
    let revision = Revision {
        number: byte,
        reading,
    };
    Command::Revision(revision)
}
