// The package for hosts in C or Rust: whole unit files, and tables of numbers, entered and settled into numbers, or written as a unit file; and running
// totals, by the numbers of a month and one step for each active minute.
// Every call is total: it answers for every length and every contents of what is lent. Each promise is one equation: the answer and all lent memory
// after the call are what the definition of the call gives for what was lent. Each matches its own answer: a closure for `map_or_else` would hold the
// memory that is lent to be written, and std does not promise that a closure which is not called leaves it.
// Meter and revision memory come as two slices, as C lends them, and are one struct from each call's door on.
#![tactic(auto)]

ghost use Rattle.std.specs.Prelude.{◌≡◌};
ghost use Rattle.book.specs.Book.{empty_book};
ghost use Rattle.book_memory.specs.Lent.{held};
ghost use Rattle.book_memory.specs.Meter.{lent};
ghost use Rattle.file_load.specs.Load.{load};
ghost use Rattle.file_write.specs.Write.{write_book};
ghost use Rattle.host.specs.Calls.{enter_file, settle_file, settle_tables, write_file, write_tables};
ghost use Rattle.host.specs.Calls.{entered_file, rewritten_file, settled_file, written_file};
ghost use Rattle.host.specs.Calls.{day_file, day_tables, watch_file, watch_tables, watched_book, watched_file};
ghost use Rattle.host.specs.Entered.{written_book};
ghost use Rattle.host_settle.specs.SettleInto.{settled_book};
ghost use Rattle.host_tables.specs.Tables.{tables};
ghost use Rattle.host_watch.specs.StepNumbers.{step_numbers, stepped_numbers};

use book::Book;
use book_memory::lent::{Lent, LentMut};
use file_load::file::load_file;
use file_write::write_book;
use host_day::answer_day;
use host_settle::answers::{number_of, pack};
use host_settle::settle_book;
use host_tables::Tables;
use host_watch::step_numbers;
use watch_month::month_of;

// Enters a whole unit file. The answer is the refusal's number, or 0, and 256 times the offset of the refused command, or the file's length.
#[unsafe(no_mangle)]
#[tactic(auto, unfolding(crate::specs::Calls::enter_file))]
pub extern "C" fn stor_enter_file(file: &[u8], meter: &mut [i32], revisions: &mut [u8]) -> u64
    ensures { entered_file result (lent meter.new revisions.new)
        ≡ enter_file file.now (lent meter.old revisions.old) }
{
    let l = load_file(file, &mut LentMut { meter, revisions });
    pack(number_of(l.answer), l.at)
}

// Enters a whole unit file and settles its book. The answer is as above; a settlement's refusal has the file's length.
#[unsafe(no_mangle)]
#[tactic(auto, unfolding(crate::specs::Calls::settle_file))]
pub extern "C" fn stor_settle_file(
    file: &[u8],
    meter: &mut [i32],
    revisions: &mut [u8],
    lines: &mut [i64],
    sums: &mut [i64],
) -> u64
    ensures { settled_file result (lent meter.new revisions.new) lines.new sums.new
        ≡ settle_file file.now (lent meter.old revisions.old) lines.old sums.old }
{
    let mut memory = LentMut { meter, revisions };
    let l = load_file(file, &mut memory);
    match l.answer {
        Ok(()) => pack(settle_book(l.book, memory.read(), lines, sums), l.at),
        Err(unsettled) => pack(unsettled.number(), l.at),
    }
}

// Settles the book that tables say. The answer is the refusal's number, or 0.
#[unsafe(no_mangle)]
#[tactic(auto, unfolding(crate::specs::Calls::settle_tables))]
pub extern "C" fn stor_settle_tables(
    contract: &[u32],
    windows: &[u32],
    instructions: &[u32],
    defaults: &[u32],
    meter: &[i32],
    revisions: &[u8],
    lines: &mut [i64],
    sums: &mut [i64],
) -> u8
    ensures { settled_book result lines.new sums.new
        ≡ settle_tables
        (tables contract.now windows.now instructions.now defaults.now)
        (lent meter.now revisions.now) lines.old sums.old }
{
    match Tables::of(contract, windows, instructions, defaults).book() {
        Ok(book) => settle_book(book, Lent { meter, revisions }, lines, sums),
        Err(unsettled) => unsettled.number(),
    }
}

// Writes a book as a unit file. The answer is the refusal's number, or 0, and 256 times the file's length, 0 on a refusal.
fn write(b: Book, memory: Lent<'_>, file: &mut [u8]) -> u64
    ensures { written_file result file.new ≡ written_book (write_book b (held memory.entry) file.old) }
{
    match write_book(b, memory, file) {
        Ok(size) => pack(0, size),
        Err(refusal) => pack(refusal.number(), 0),
    }
}

// Writes the book that tables say as a unit file. The answer is the refusal's number, or 0, and 256 times the file's length, 0 on a refusal.
#[unsafe(no_mangle)]
#[tactic(auto, unfolding(crate::specs::Calls::write_tables))]
pub extern "C" fn stor_write_tables(
    contract: &[u32],
    windows: &[u32],
    instructions: &[u32],
    defaults: &[u32],
    meter: &[i32],
    revisions: &[u8],
    file: &mut [u8],
) -> u64
    ensures { written_file result file.new
        ≡ write_tables
        (tables contract.now windows.now instructions.now defaults.now)
        (lent meter.now revisions.now) file.old }
{
    match Tables::of(contract, windows, instructions, defaults).book() {
        Ok(book) => write(book, Lent { meter, revisions }, file),
        Err(unwritten) => pack(unwritten.number(), 0),
    }
}

// Enters a whole unit file and writes its book, open, empty or closed, as a unit file into other memory. The answer is the refusal's number, or 0, and
// 256 times the offset of the refused command, or the written file's length; 0 where it has no room.
#[unsafe(no_mangle)]
#[tactic(auto, unfolding(crate::specs::Calls::write_file))]
pub extern "C" fn stor_write_file(
    file: &[u8],
    meter: &mut [i32],
    revisions: &mut [u8],
    written: &mut [u8],
) -> u64
    ensures { rewritten_file result (lent meter.new revisions.new) written.new
        ≡ write_file file.now (lent meter.old revisions.old) written.old }
{
    let mut memory = LentMut { meter, revisions };
    let l = load_file(file, &mut memory);
    match l.answer {
        Ok(()) => write(l.book, memory.read(), written),
        Err(unwritten) => pack(unwritten.number(), l.at),
    }
}

// Enters a whole unit file and answers what kind of day a day of its book's month is, where these days are holidays. The answer is the refusal's number,
// or 0, and 256 times the offset of the refused command, or the kind of the day.
#[unsafe(no_mangle)]
#[tactic(auto, unfolding(crate::specs::Calls::day_file))]
pub extern "C" fn stor_day_file(
    file: &[u8],
    meter: &mut [i32],
    revisions: &mut [u8],
    day: u32,
    holidays: &[u32],
) -> u64
    ensures { entered_file result (lent meter.new revisions.new)
        ≡ day_file file.now (lent meter.old revisions.old) day holidays.now }
{
    let mut memory = LentMut { meter, revisions };
    let l = load_file(file, &mut memory);
    match l.answer {
        Ok(()) => answer_day(l.book, day, holidays),
        Err(unasked) => pack(unasked.number(), l.at),
    }
}

// The same of the book that tables say.
#[unsafe(no_mangle)]
#[tactic(auto, unfolding(crate::specs::Calls::day_tables))]
pub extern "C" fn stor_day_tables(
    contract: &[u32],
    windows: &[u32],
    instructions: &[u32],
    defaults: &[u32],
    day: u32,
    holidays: &[u32],
) -> u64
    ensures { result ≡ day_tables
        (tables contract.now windows.now instructions.now defaults.now)
        day holidays.now }
{
    match Tables::of(contract, windows, instructions, defaults).book() {
        Ok(book) => answer_day(book, day, holidays),
        Err(unasked) => pack(unasked.number(), 0),
    }
}

// Enters a whole unit file and works out the month of its book, open or closed, as numbers that steps read. The answer is the refusal's number, or 0,
// and 256 times the offset of the refused command, or the file's length, also where the month has no room.
#[unsafe(no_mangle)]
#[tactic(auto, unfolding(crate::specs::Calls::watch_file))]
pub extern "C" fn stor_watch_file(
    file: &[u8],
    meter: &mut [i32],
    revisions: &mut [u8],
    month: &mut [u32],
) -> u64
    ensures { watched_file result (lent meter.new revisions.new) month.new
        ≡ watch_file file.now (lent meter.old revisions.old) month.old }
{
    let mut memory = LentMut { meter, revisions };
    let l = load_file(file, &mut memory);
    match l.answer {
        Ok(()) => pack(number_of(month_of(l.book, month)), l.at),
        Err(unwatched) => pack(unwatched.number(), l.at),
    }
}

// Works out the month of the book that tables say. The answer is the refusal's number, or 0.
#[unsafe(no_mangle)]
#[tactic(auto, unfolding(crate::specs::Calls::watch_tables))]
pub extern "C" fn stor_watch_tables(
    contract: &[u32],
    windows: &[u32],
    instructions: &[u32],
    defaults: &[u32],
    month: &mut [u32],
) -> u8
    ensures { watched_book result month.new
        ≡ watch_tables
        (tables contract.now windows.now instructions.now defaults.now)
        month.old }
{
    match Tables::of(contract, windows, instructions, defaults).book() {
        Ok(book) => number_of(month_of(book, month)),
        Err(unwatched) => unwatched.number(),
    }
}

// One step of the running totals, by a month's numbers and the reading of its minute. The answer is 0, or from 101 on why the totals are as they were.
#[unsafe(no_mangle)]
pub extern "C" fn stor_watch_step(
    month: &[u32],
    totals: &mut [i64],
    instruction: u32,
    minute: u16,
    kw: i32,
    base: &[i32],
) -> u8
    ensures { stepped_numbers result totals.new
        ≡ step_numbers month.now totals.old instruction (record { minute = record { 0 = minute }; kw = record { 0 = kw } })
        base.now }
{
    step_numbers(month, totals, instruction, minute, kw, base)
}
