// The entry of a line.
use crate::text::ScriptLine;
use calendar::Date;
use commands::contract::Contract;
use commands::entries::{Command, Default, Instruction, Reading, Revision, Window};
use energy::units::{Kw, Minutes};

fn contract_of(line: ScriptLine<'_>) -> Contract {
    Contract {
        days: line.at(1),
        kind: line.at(2),
        service: line.at(3),
        contracted: Kw(line.at(4)),
        rampup: line.at(5),
        rampdown: line.at(6),
        response: Minutes(line.at(7)),
        recovery: Minutes(line.at(8)),
        availability: line.at(9),
        utilisation: line.at(10),
        optional: line.at(11),
    }
}

fn date_of(line: ScriptLine<'_>) -> Date {
    Date {
        year: line.at(1),
        month: line.at(2),
        day: line.at(3),
    }
}

// The fields of an entry, after so many spaces.
pub(crate) fn window_of(line: ScriptLine<'_>, from: u8) -> Window {
    let from = usize::from(from);
    Window {
        start: Minutes(line.at(from)),
        end: Minutes(line.at(from + 1)),
        verdict: line.at(from + 2),
    }
}

pub(crate) fn instruction_of(line: ScriptLine<'_>, from: u8) -> Instruction {
    let from = usize::from(from);
    Instruction {
        issue: Minutes(line.at(from)),
        cease: Minutes(line.at(from + 1)),
    }
}

pub(crate) fn default_of(line: ScriptLine<'_>, from: u8) -> Default {
    let from = usize::from(from);
    Default {
        minute: Minutes(line.at(from)),
        kind: line.at(from + 1),
        reach: line.at(from + 2),
    }
}

// A minute after one space, and a kW after so many: a revision has its number between them.
fn reading_of(line: ScriptLine<'_>, kw: usize) -> Reading {
    Reading {
        minute: Minutes(line.at(1)),
        kw: Kw(line.at(kw)),
    }
}

fn revision_of(line: ScriptLine<'_>) -> Revision {
    Revision {
        number: line.at(2),
        reading: reading_of(line, 3),
    }
}

// The command that a line says. A match, as in `run`.
pub(crate) fn command_of(line: ScriptLine<'_>) -> Command {
    match line.letter() {
        b'C' => Command::Contract(contract_of(line)),
        b'Y' => Command::Date(date_of(line)),
        b'W' => Command::Window(window_of(line, 1)),
        b'I' => Command::Instruction(instruction_of(line, 1)),
        b'D' => Command::Default(default_of(line, 1)),
        b'M' => Command::Reading(reading_of(line, 2)),
        b'V' => Command::Revision(revision_of(line)),
        _ => Command::Close,
    }
}
