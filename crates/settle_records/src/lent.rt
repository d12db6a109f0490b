// Settling a book: its lines into records the caller lends, and the statement with the totals.
ghost use Rattle.std.specs.Prelude.{◌≡◌};
ghost use Rattle.book_memory.specs.Lent.{held};
ghost use Rattle.settle.specs.Settle.{settle_book};

use book::Book;
use book_memory::lent::Lent;
use commands::refusal::Refusal;
use rules::statement::{Line, Statement};
use settle::prepare::{check_book, lay_out, sum_up};
use settle_lines::cursor::Walk;

// Settles a book over lent memory: the statement, and its lines in the first of the records lent. A refusal alters no record.
// Its loop is that of `settle_numbers`, which says why it has one of its own.
pub fn settle(b: Book, memory: Lent<'_>, lines: &mut [Line]) -> Result<Statement, Refusal>
    ensures value { result ≡ (settle_book b (held memory.entry) lines.old).answer }
    ensures lines_after { lines.new ≡ (settle_book b (held memory.entry) lines.old).memory }
{
    let n = check_book(&b, b.sound(), memory, lines.len())?;
    let p = lay_out(&b, n);
    let walk = Walk {
        terms: p.terms,
        instructions: &b.instructions[..b.ninstructions],
        live: &p.live,
        meter: memory.meter,
    };
    let mut c = walk.first();
    for slot in &mut lines[..n] {
        let s = walk.step(c);
        *slot = s.line;
        c = s.next;
    }
    Ok(sum_up(p.statement, c))
}
