// Standard input, read into one buffer, piece by piece.
ghost use Rattle.std.specs.Prelude.{◌≡◌, ◌≤◌, length, take};
ghost use Rattle.book_memory.specs.Lent.{held_mut};
ghost use Rattle.lister.specs.Input.{ListedInput};

use crate::piece::Ended;
use crate::turn::{Turn, list_piece};
use book::Book;
use book_memory::lent::LentMut;
use lister_page::BYTES;
use std::io::Read;

// Reads until the buffer is full, the input ends or a read fails; how many bytes it put in front. Of std's `Read`, `read_exact` does not tell how many
// those are, and `read_to_end` needs the heap. The test of scripts has the same: a crate for these lines alone would be no plainer.
fn read_full(input: &mut impl Read, buffer: &mut [u8]) -> usize
    ensures { result ≤ length buffer.new }
{
    let mut done = 0;
    while done < buffer.len() {
        match input.read(&mut buffer[done..]) {
            Ok(0) | Err(_) => break,
            Ok(n) => done += n,
        }
    }
    done
}

// The bytes that the buffer holds once standard input has filled it behind those that were kept.
fn fill(input: &mut impl Read, buffer: &mut [u8], kept: usize) -> usize
    requires { kept ≤ length buffer.old }
    ensures { (take kept buffer.new ≡ take kept buffer.old) × (kept ≤ result) × (result ≤ length buffer.new) }
{
    kept + read_full(input, &mut buffer[kept..])
}

// Reads standard input up to its end or the first refusal, and puts the rows of what came; how many bytes. It ends because commands that are all
// taken are no longer than the tables and lent memory have room for (FileLength·theorem of the rules). A `loop`: which piece is the last is known when it is read.
pub fn list_input(
    input: &mut impl Read,
    buffer: &mut [u8],
    memory: &mut LentMut<'_>,
    rows: &mut [u8; BYTES],
) -> usize
    requires { (32 ≤ length buffer.old) × (length buffer.old ≤ 65536) × (length memory.old.meter.now ≡ 15840) × (length memory.old.revisions.now ≡ 15840) }
    ensures { ListedInput (held_mut memory.old) buffer.new rows.old rows.new result }
{
    let mut e = Ended {
        answer: Ok(()),
        offset: 0,
        book: Book::empty(),
    };
    let mut kept = 0;
    loop {
        let have = fill(input, buffer, kept);
        match list_piece(e, have, buffer, memory, rows) {
            Turn::Next(piece) => {
                e = piece.ended;
                kept = piece.kept;
            }
            Turn::Listed(n) => return n,
        }
    }
}
