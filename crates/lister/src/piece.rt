// One piece of a file: the bytes in hand are entered up to a command that they cut off, whose bytes are kept for the next piece.
ghost use Rattle.std.specs.Prelude.{◌≡◌, true, ◌&&◌, ◌+◌, ◌^◌, ◌≤◌, ◌<◌, eqb, length};
ghost use Rattle.book_memory.specs.Lent.{held_mut};
ghost use Rattle.book.specs.Sound.{sound};
ghost use Rattle.demands.specs.Pieces.{unfinished as unfinished_of};
ghost use Rattle.lister.specs.Input.{EntersPiece};

use book::Book;
use book_memory::lent::LentMut;
use commands::refusal::Refusal;
use file_load::file::load;
use rules::answer::Answer;

// How a file's entering ended, and the offset of the byte where it did. No `Result`: offset and book count under either answer.
#[derive(Clone, Copy)]
pub struct Ended {
    pub answer: Answer,
    pub offset: usize,
    pub book: Book,
}

// How entering stands after a piece, and how many bytes are kept in front of the buffer.
#[derive(Clone, Copy)]
pub struct Piece {
    pub ended: Ended,
    pub kept: usize,
}

// Whether more bytes can change how a piece ended: it ended behind a command or inside one.
fn unfinished(answer: Answer) -> bool
    ensures { result ≡ unfinished_of answer }
{
    match answer {
        Ok(()) => true,
        Err(refusal) => refusal == Refusal::CutOff,
    }
}

// Whether there is another piece to read after the first `have` bytes of a buffer: where more bytes can change how they ended, and they fill the buffer. A
// read that comes short is the last.
pub fn goes_on(answer: Answer, have: usize, buffer: &[u8]) -> bool
    ensures { result ≡ (unfinished_of answer && eqb have (length buffer.now)) }
{
    unfinished(answer) & (have == buffer.len())
}

// Enters the first `have` bytes of the buffer, where entering stood so before them. Buffer and lent memory are slices and no arrays, so that the promise
// holds for every size.
pub fn enter_piece(e: Ended, have: usize, buffer: &mut [u8], memory: &mut LentMut<'_>) -> Piece
    requires { (sound e.book ≡ true) × (have ≤ length buffer.old) × (e.offset + have < 2 ^ 64) }
    ensures { EntersPiece e (held_mut memory.old) buffer.old have result
        (held_mut memory.new) buffer.new }
{
    let l = load(e.book, &buffer[..have], memory);
    buffer.copy_within(l.at..have, 0);
    let ended = Ended {
        answer: l.answer,
        offset: e.offset + l.at,
        book: l.book,
    };
    let kept = have - l.at;
    Piece { ended, kept }
}
