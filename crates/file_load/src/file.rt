// Whole unit files: each command read where the last one stopped and entered, up to the file's end or the first refusal.
ghost use Rattle.std.specs.Prelude.{◌≡◌, true, ◌≤◌, length};
ghost use Rattle.book_memory.specs.Lent.{Becomes, held_mut};
ghost use Rattle.book.specs.Book.{empty_book};
ghost use Rattle.book.specs.Sound.{sound};
ghost use Rattle.file_load.specs.Load.{load as load_of};
ghost use Rattle.file_load.specs.Turn.{turn_at};

use book::Book;
use book_memory::lent::LentMut;
use commands::refusal::Refusal;
use file_read::reader::read_from;
use file_readings::take_readings;
use rules::answer::Answer;

// How the entering of a file's commands ended: taken at the file's end, or the first refusal, the reader's or the book's; where the reader stood then, before
// the refused command; and the book with the commands before it. Beside a refusal too there are book and position, so a `Result` would hold both twice.
#[derive(Clone, Copy)]
pub struct Loaded {
    pub answer: Answer,
    pub at: usize,
    pub book: Book,
}

// One turn of the loop: the command at a position, read by the reader and entered into the book. The position of the next one; none at the file's end; or
// the refusal, the reader's or the book's. A function of its own in the machine code too: drawn into the loop over readings, it keeps LLVM's vectorizer of
// straight-line code busy for minutes.
#[inline(never)]
#[tactic(auto, unfolding(crate::specs::Turn::turn_at, file_read::specs::Reader::step_at))]
fn read_and_enter(
    book: &mut Book,
    s: &[u8],
    at: usize,
    memory: &mut LentMut<'_>,
) -> Result<Option<usize>, Refusal>
    requires { sound book.old ≡ true }
    ensures value { result ≡ (turn_at s.now at book.old (held_mut memory.old)).turn }
    ensures book_after { book.new ≡ (turn_at s.now at book.old (held_mut memory.old)).book }
    ensures memory_after { Becomes memory.old (turn_at s.now at book.old (held_mut memory.old)).meter memory.new }
{
    let Some((c, next)) = read_from(s, at).read? else {
        return Ok(None);
    };
    let entry = book.enter_known(c, memory);
    *book = entry.book;
    entry.answer?;
    Ok(Some(next))
}

// All commands of a file, or of a piece of one, into a sound book. 11 is not asked again at each command: entering keeps the book sound.
// Readings, of which a file has most, are taken without the book, by its open span, which is asked again after every other command. A `loop`: only
// the reader knows where the file ends.
pub fn load(b: Book, s: &[u8], memory: &mut LentMut<'_>) -> Loaded
    requires { sound b ≡ true }
    ensures { (result ≡ (load_of s.now b (held_mut memory.old)).loaded)
        × Becomes memory.old (load_of s.now b (held_mut memory.old)).meter memory.new
        × (sound result.book ≡ true)
        × (result.at ≤ length s.now) }
{
    let mut book = b;
    let mut at = 0;
    let answer = loop {
        let span = book.open_span(memory.read().room());
        at = take_readings(span, s, at, memory);
        match read_and_enter(&mut book, s, at, memory) {
            Ok(Some(next)) => at = next,
            Ok(None) => break Ok(()),
            Err(refusal) => break Err(refusal),
        }
    };
    Loaded { answer, at, book }
}

// All commands of a file into the empty book.
pub fn load_file(s: &[u8], memory: &mut LentMut<'_>) -> Loaded
    ensures { (result ≡ (load_of s.now empty_book (held_mut memory.old)).loaded)
        × Becomes memory.old (load_of s.now empty_book (held_mut memory.old)).meter memory.new
        × (sound result.book ≡ true) }
{
    load(Book::empty(), s, memory)
}
