// A book as a unit file.
#![tactic(auto)]

mod entries;
mod layout;
mod length;

ghost use Rattle.std.specs.Prelude.{◌≡◌};
ghost use Rattle.book_memory.specs.Lent.{held};
ghost use Rattle.file_write.specs.Write.{write_book};

use crate::layout::put_book;
use crate::length::file_length;
use book::Book;
use book_memory::lent::Lent;
use commands::refusal::Refusal;

// Writes a book and the readings in lent memory as a unit file into the first of the lent bytes; the file's length. Those after it keep their contents; a
// refusal alters none.
pub fn write_book(b: Book, memory: Lent<'_>, out: &mut [u8]) -> Result<usize, Refusal>
    ensures { (result ≡ (write_book b (held memory.entry) out.old).answer)
        × (out.new ≡ (write_book b (held memory.entry) out.old).memory) }
{
    if !b.sound() {
        return Err(Refusal::NotReached);
    }
    let room = memory.room();
    if room < b.cells() {
        return Err(Refusal::ShortMemory);
    }
    if out.len() < file_length(&b, memory) {
        return Err(Refusal::NoRoom);
    }
    Ok(put_book(&b, memory, out))
}
