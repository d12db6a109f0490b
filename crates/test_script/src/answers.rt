// Rows of what entering answers, of cells, and of days.
use crate::text::ScriptLine;
use book::{Book, Entry};
use std::{array, io};
use working_days::{Day, day_of};

// The most holidays that a line tells.
const HOLIDAYS_MOST: usize = 64;

// A line of the script as it stands.
pub(crate) fn print_line(rt: &impl Print, line: ScriptLine<'_>) -> io::Result<()> {
    rt.write_all(line.text)?;
    println!(rt)
}

// A line with its answer, and of the book after it: contract, windows, instructions, defaults, closed. Where it is quiet, only a refusal.
pub(crate) fn print_entry(
    rt: &impl Print,
    line: ScriptLine<'_>,
    e: Entry,
    quiet: bool,
) -> io::Result<()> {
    if quiet && e.answer.is_ok() {
        return Ok(());
    }
    rt.write_all(line.text)?;
    match e.answer {
        Ok(()) => print!(rt; ": taken")?,
        Err(refusal) => print!(rt; ": {}", refusal.number())?,
    }
    let agreed = u8::from(e.book.agreed);
    let windows = e.book.nwindows;
    let instructions = e.book.ninstructions;
    let defaults = e.book.ndefaults;
    let closed = u8::from(e.book.closed);
    println!(rt; " / {agreed} {windows} {instructions} {defaults} {closed}")
}

// A line with a minute's cell and its revision byte. The cell is "marked", "negative", or its kW from 0.
pub(crate) fn print_minute(
    rt: &impl Print,
    line: ScriptLine<'_>,
    kw: i32,
    revision: u8,
) -> io::Result<()> {
    rt.write_all(line.text)?;
    match kw {
        i32::MIN => print!(rt; ": marked")?,
        0.. => print!(rt; ": {kw}")?,
        _ => print!(rt; ": negative")?,
    }
    println!(rt; " / {revision}")
}

// A line with the kind of its day of a book's month. The numbers behind it are holidays.
pub(crate) fn print_day(rt: &impl Print, b: Book, line: ScriptLine<'_>) -> io::Result<()> {
    let holidays: [u32; HOLIDAYS_MOST] = array::from_fn(|i| line.at(i + 2));
    let told = line.further_numbers().min(HOLIDAYS_MOST);
    rt.write_all(line.text)?;
    match day_of(b, line.at(1), &holidays[..told]) {
        Ok(None) => println!(rt; ": no such day"),
        Ok(Some(Day::Working)) => println!(rt; ": working"),
        Ok(Some(Day::NonWorking)) => println!(rt; ": non-working"),
        Err(refusal) => println!(rt; ": {}", refusal.number()),
    }
}
