// The length of a book's file, by the lengths that the table of the unit file has for its commands.
ghost use Rattle.std.specs.Prelude.{◌≡◌, cond, [], ◌∷◌, ◌≤◌, map, length};
ghost use Rattle.book_memory.specs.Lent.{held};
ghost use Rattle.book_memory.specs.Meter.{cell_reading, room_in};
ghost use Rattle.commands.specs.Input.{most_minute};
ghost use Rattle.rules.specs.File.{reading_at};
ghost use Rattle.file_write.specs.Laid.{file_bytes, readings, parts, Kept};

use crate::entries::{Entry, reading_of};
use book::Book;
use book_memory::holds_reading;
use book_memory::lent::Lent;
use commands::entries::Command;
use energy::units::Minutes;
use file_encode::length_of;

// The bytes of a command that may be left out.
fn length_if(holds: bool, command: Command) -> usize
    ensures { result ≡ length (file_bytes (cond holds (command ∷ []) [])) }
{
    if holds { length_of(command) } else { 0 }
}

// The bytes of a table's entries.
fn entries_length<T: Entry>(entries: &[T]) -> usize
    requires { length entries.now ≤ 128 }
    ensures { result ≡ length (file_bytes (map T.as_command entries.now)) }
{
    let mut n = 0;
    for entry in entries {
        n += length_of(entry.command());
    }
    n
}

// The bytes of a minute's reading, if its cell holds one. A revision has one more than a plain reading.
fn cell_length(minute: Minutes, cell: i32, byte: u8) -> usize
    ensures { result ≡ length (file_bytes (reading_at (cell_reading cell byte) minute.0)) }
{
    length_if(holds_reading(cell), reading_of(minute, cell, byte))
}

// The bytes of the readings of the first minutes, a cell and a byte each.
fn readings_length(memory: Lent<'_>) -> usize
    requires { room_in (held memory) ≤ most_minute }
    ensures { result ≡ length (file_bytes (readings (held memory.entry) (room_in (held memory.entry)))) }
{
    let mut n = 0;
    for (m, (cell, byte)) in memory.meter.iter().zip(memory.revisions).enumerate() {
        n += cell_length(Minutes(m as u16), *cell, *byte);
    }
    n
}

// The length of a book's file.
pub(crate) fn file_length(b: &Book, memory: Lent<'_>) -> usize
    requires { Kept b.now (room_in (held memory)) }
    ensures { result ≡ length (file_bytes (parts b.now (held memory.entry))) }
{
    let span = b.span();
    let contract = length_if(b.agreed, Command::Contract(b.contract));
    let date = length_if(!b.date.is_none(), Command::Date(b.date));
    let windows = entries_length(&b.windows[..b.nwindows]);
    let instructions = entries_length(&b.instructions[..b.ninstructions]);
    let defaults = entries_length(&b.defaults[..b.ndefaults]);
    let readings = readings_length(memory.first(span));
    let close = length_if(b.closed, Command::Close);
    contract + date + windows + instructions + defaults + readings + close
}
