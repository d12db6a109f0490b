// Commands put into lent bytes one after the other.
ghost use Rattle.std.specs.Prelude.{cond, [], ◌∷◌, ◌≤◌, map};
ghost use Rattle.commands.specs.Input.{most_minute};
ghost use Rattle.rules.specs.File.{reading_at};
ghost use Rattle.book_memory.specs.Lent.{held};
ghost use Rattle.book_memory.specs.Meter.{cell_reading, room_in};
ghost use Rattle.file_write.specs.Laid.{Room, Laid, readings, parts, Kept};

use crate::entries::{Entry, reading_of};
use book::Book;
use book_memory::holds_reading;
use book_memory::lent::Lent;
use commands::entries::Command;
use energy::units::Minutes;
use file_encode::write_at;

// A command where there is room for it; the position after it.
fn put(command: Command, out: &mut [u8], at: usize) -> usize
    requires { Room (command ∷ []) out.old at }
    ensures { Laid (command ∷ []) out.old at out.new result }
{
    write_at(command, out, at).unwrap()
}

// The same for one that may be left out.
fn put_if(holds: bool, command: Command, out: &mut [u8], at: usize) -> usize
    requires { Room (cond holds (command ∷ []) []) out.old at }
    ensures { Laid (cond holds (command ∷ []) []) out.old at out.new result }
{
    if holds { put(command, out, at) } else { at }
}

// A table's entries.
fn put_entries<T: Entry>(entries: &[T], out: &mut [u8], at: usize) -> usize
    requires { Room (map T.as_command entries.now) out.old at }
    ensures { Laid (map T.as_command entries.now) out.old at out.new result }
{
    let mut place = at;
    for entry in entries {
        place = put(entry.command(), out, place);
    }
    place
}

// The reading of a minute, if its cell holds one.
fn put_cell(minute: Minutes, cell: i32, byte: u8, out: &mut [u8], at: usize) -> usize
    requires { Room (reading_at (cell_reading cell byte) minute.0) out.old at }
    ensures { Laid (reading_at (cell_reading cell byte) minute.0) out.old at out.new result }
{
    put_if(holds_reading(cell), reading_of(minute, cell, byte), out, at)
}

// The readings of the first minutes, a cell and a byte each, by rising minute.
fn put_readings(memory: Lent<'_>, out: &mut [u8], at: usize) -> usize
    requires { (room_in (held memory) ≤ most_minute)
        × Room (readings (held memory) (room_in (held memory))) out.old at }
    ensures { Laid (readings (held memory.entry) (room_in (held memory.entry))) out.old at out.new result }
{
    let mut place = at;
    for (m, (cell, byte)) in memory.meter.iter().zip(memory.revisions).enumerate() {
        place = put_cell(Minutes(m as u16), *cell, *byte, out, place);
    }
    place
}

// A book's file from the first byte on; its length. Each name is the position where that part starts.
#[tactic(auto, using(crate::proofs::WrittenParts::parts_length))]
pub(crate) fn put_book(b: &Book, memory: Lent<'_>, out: &mut [u8]) -> usize
    requires { Kept b.now (room_in (held memory)) × Room (parts b.now (held memory)) out.old 0 }
    ensures { Laid (parts b.now (held memory.entry)) out.old 0 out.new result }
{
    let span = b.span();
    let date = put_if(b.agreed, Command::Contract(b.contract), out, 0);
    let windows = put_if(!b.date.is_none(), Command::Date(b.date), out, date);
    let instructions = put_entries(&b.windows[..b.nwindows], out, windows);
    let defaults = put_entries(&b.instructions[..b.ninstructions], out, instructions);
    let readings = put_entries(&b.defaults[..b.ndefaults], out, defaults);
    let close = put_readings(memory.first(span), out, readings);
    put_if(b.closed, Command::Close, out, close)
}
