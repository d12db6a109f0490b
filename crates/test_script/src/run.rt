// The run of a script.
ghost use Rattle.std.specs.Prelude.{◌≤◌};

use crate::answers::{print_day, print_entry, print_line, print_minute};
use crate::change::change;
use crate::entries::command_of;
use crate::memory::{UNWRITTEN, held, put_each};
use crate::statement::print_month;
use crate::text::ScriptLine;
use book::{Book, Entry};
use book_memory::lent;
use commands::entries::Command;
use energy::units::{Kwh, Pence};
use rules::statement::{LINES_MOST, LISTED_MOST, Line, Rate, Stage};
use settle_records::lent::settle;
use settle_records::listed::{blank, listed};
use std::io;

// The minutes of a month of 31 days and an hour.
const CELLS: usize = 44700;

// What a record that is lent holds before: no line has such an instruction.
const MARK: Line = Line {
    instruction: 4000000000,
    period: 4000000001,
    stage: Stage::Down,
    rate: Rate::Optional,
    expected: Kwh(4),
    delivered: Kwh(3),
    capped: Kwh(2),
    pence: Pence(1),
};

// What a cell can hold of a kW, 0 of what it cannot.
fn kw_of(kw: i64) -> i32 {
    i32::try_from(kw).unwrap_or(0)
}

// How many cells, revision bytes and records are lent: no more than there are.
#[derive(Clone, Copy)]
struct Lent {
    cells: usize,
    bytes: usize,
    records: usize,
    ghost cells_in: { cells ≤ 44700 },
    ghost bytes_in: { bytes ≤ 44700 },
    ghost records_in: { records ≤ 1681 },
}

// A command by a method of its own, or by `enter`, which contracts, readings and revisions come to in any case, and in a quiet script every command. No method
// of the session: parts of two fields behind one reference cannot be lent at once. A session's two arrays, of which it lends parts: they are one from the
// first call on.
fn entered(
    b: Book,
    c: Command,
    quiet: bool,
    lent: Lent,
    meter: &mut [i32; CELLS],
    revisions: &mut [u8; CELLS],
) -> Entry {
    let mut memory = lent::LentMut {
        meter: &mut meter[..lent.cells],
        revisions: &mut revisions[..lent.bytes],
    };
    let room = memory.read().room();
    match c {
        Command::Date(d) if !quiet => b.date(d, &mut memory),
        Command::Window(w) if !quiet => b.window(w, room),
        Command::Instruction(i) if !quiet => b.instruction(i, room),
        Command::Default(d) if !quiet => b.default(d, room),
        Command::Close if !quiet => b.close(room),
        _ => b.enter(c, &mut memory),
    }
}

// What a script works on: the book, one that it keeps, and memory.
#[derive(Drop)]
pub(crate) struct Session {
    book: Book,
    kept: Book,
    meter: [i32; CELLS],
    revisions: [u8; CELLS],
    lent: Lent,
    // Whether what is taken goes unprinted.
    quiet: bool,
}

impl Session {
    pub(crate) fn new() -> Session {
        Session {
            book: Book::empty(),
            kept: Book::empty(),
            meter: [0; CELLS],
            revisions: [0; CELLS],
            lent: Lent {
                cells: 0,
                bytes: 0,
                records: 0,
            },
            quiet: false,
        }
    }

    // Enters a command.
    fn enter(&mut self, rt: &impl Print, line: ScriptLine<'_>) -> io::Result<()> {
        let book = self.book;
        let quiet = self.quiet;
        let lent = self.lent;
        let c = command_of(line);
        let e = entered(book, c, quiet, lent, &mut self.meter, &mut self.revisions);
        self.book = e.book;
        print_entry(rt, line, e, quiet)
    }

    // Lends so many cells, and as many revision bytes.
    fn lend(&mut self, n: usize) {
        self.lent.cells = n.min(CELLS);
        self.lent.bytes = n.min(CELLS);
    }

    // The empty book, over cells that all hold a kW and revision bytes that hold anything.
    fn restart(&mut self, rt: &impl Print, line: ScriptLine<'_>) -> io::Result<()> {
        self.lend(line.at(1));
        self.meter = [kw_of(line.at(2)); CELLS];
        self.revisions = [UNWRITTEN; CELLS];
        self.book = Book::empty();
        if self.quiet {
            return Ok(());
        }
        print_line(rt, line)
    }

    // The parts of both arrays that are lent, to be read.
    fn readings(&self) -> lent::Lent<'_> {
        lent::Lent {
            meter: &self.meter[..self.lent.cells],
            revisions: &self.revisions[..self.lent.bytes],
        }
    }

    // A settlement into the records lent.
    fn settle_lent(&self, rt: &impl Print, line: ScriptLine<'_>) -> io::Result<()> {
        let n = self.lent.records;
        let mut lines = [MARK; LINES_MOST];
        let statement = settle(self.book, self.readings(), &mut lines[..n]);
        print_month(
            rt,
            statement,
            &lines[..n],
            MARK,
            self.book.nwindows,
            line.at(1),
        )
    }

    // A settlement into records of its own.
    fn settle_own(&self, rt: &impl Print, line: ScriptLine<'_>) -> io::Result<()> {
        let month = listed(self.book, self.readings());
        let windows = self.book.nwindows;
        match month {
            Ok(listing) => {
                let lines = listing.lines;
                let statement = Ok(listing.statement);
                print_month(rt, statement, &lines, blank(), windows, line.at(1))
            }
            Err(refusal) => {
                let lines = [blank(); LISTED_MOST];
                print_month(rt, Err(refusal), &lines, blank(), windows, line.at(1))
            }
        }
    }

    fn put_cells(&mut self, line: ScriptLine<'_>) {
        let kw = kw_of(line.at(4));
        put_each(&mut self.meter, line.at(1), line.at(2), line.at(3), kw);
    }

    fn put_numbers(&mut self, line: ScriptLine<'_>) {
        let number = line.at(4);
        put_each(
            &mut self.revisions,
            line.at(1),
            line.at(2),
            line.at(3),
            number,
        );
    }

    fn show_minute(&self, rt: &impl Print, line: ScriptLine<'_>) -> io::Result<()> {
        let at = line.at(1);
        print_minute(rt, line, held(&self.meter, at), held(&self.revisions, at))
    }

    // What a line says is set. A match and no table of closures, here and below: each letter stands once, beside its step.
    fn set(&mut self, line: ScriptLine<'_>) {
        match line.letter() {
            b'l' => self.lend(line.at(1)),
            b't' => self.lent.bytes = line.at::<usize>(1).min(CELLS),
            b'n' => self.lent.records = line.at::<usize>(1).min(LINES_MOST),
            b'q' => self.quiet = !self.quiet,
            b'm' => self.put_cells(line),
            b'v' => self.put_numbers(line),
            b'b' | b'w' | b'i' | b'd' => change(&mut self.book, line),
            b'k' => self.kept = self.book,
            b'r' => self.book = self.kept,
            _ => {}
        }
    }

    // Does what a line says.
    pub(crate) fn run(&mut self, rt: &impl Print, line: ScriptLine<'_>) -> io::Result<()> {
        match line.letter() {
            b'C' | b'Y' | b'W' | b'I' | b'D' | b'M' | b'V' | b'Z' => self.enter(rt, line),
            b'e' => self.restart(rt, line),
            b'g' => self.show_minute(rt, line),
            b'y' => print_day(rt, self.book, line),
            b's' => self.settle_lent(rt, line),
            b'o' => self.settle_own(rt, line),
            b'#' => print_line(rt, line),
            _ => {
                self.set(line);
                Ok(())
            }
        }
    }
}

// Every line of a script.
pub(crate) fn run_script(rt: &impl Print, text: &[u8]) -> io::Result<()> {
    let mut session = Session::new();
    for piece in text.split_inclusive(|b| *b == b'\n') {
        session.run(rt, ScriptLine::new(piece))?;
    }
    Ok(())
}
