// One turn of the lister: a piece is entered and, where it is the last one, the file is settled and its listing printed.
ghost use Rattle.std.specs.Prelude.{◌≡◌, true, ◌+◌, ◌^◌, ◌≤◌, ◌<◌, length};
ghost use Rattle.book_memory.specs.Lent.{held_mut};
ghost use Rattle.book.specs.Sound.{sound};
ghost use Rattle.lister.specs.Input.{ListsPiece};

use crate::output::put_answer;
use crate::piece::{Ended, Piece, enter_piece, goes_on};
use book_memory::lent::LentMut;
use lister_page::BYTES;

// The piece as it was entered where another is to be read, and after the last one how many bytes of rows were put.
#[derive(Clone, Copy)]
pub enum Turn {
    Next(Piece),
    Listed(usize),
}

// Enters the bytes in hand and, where no more are to be read, puts the rows of what all bytes came to.
pub fn list_piece(
    e: Ended,
    have: usize,
    buffer: &mut [u8],
    memory: &mut LentMut<'_>,
    rows: &mut [u8; BYTES],
) -> Turn
    requires { (sound e.book ≡ true) × (have ≤ length buffer.old) × (e.offset + have < 2 ^ 64) }
    ensures { ListsPiece e (held_mut memory.old) buffer.old have
        (held_mut memory.new) buffer.new rows.old rows.new result }
{
    let piece = enter_piece(e, have, buffer, memory);
    let ended = piece.ended;
    if goes_on(ended.answer, have, buffer) {
        return Turn::Next(piece);
    }
    Turn::Listed(put_answer(ended, memory.read(), rows))
}
