// What settling decides and calculates before the first record is written, and the sums that it adds after the last.
ghost use Rattle.std.specs.Prelude.{◌≡◌, true, MatchResult};
ghost use Rattle.std.proofs.Math.Option.{some};
ghost use Rattle.book_memory.specs.Lent.{held};
ghost use Rattle.energy.specs.Number.{Within};
ghost use Rattle.commands.specs.Refusals.{number_of};
ghost use Rattle.book.specs.Sound.{Shaped, sound};
ghost use Rattle.settle.specs.Settle.{refusal_for};
ghost use Rattle.settle.specs.Prepared.{Counted, LaidOut, Prepares, summed, unsummed};

use book::Book;
use book_memory::lent::Lent;
use commands::refusal::{Refusal, refuse_if};
use energy::units::{Kwh, Pence};
use rules::statement::Statement;
use settle_availability::paid::{Entries, availability};
use settle_lines::cursor::Cursor;
use settle_live::mark_live;
use settle_survey::survey_all;
use settle_terms::minutes::PLACES;
use settle_terms::{Terms, terms_of};

// What settling has before the first record is written: the statement without the lines' sums, and what the lines are calculated from.
#[derive(Clone, Copy)]
pub struct Prepared {
    pub statement: Statement,
    pub terms: Terms,
    pub live: [u8; PLACES],
}

// The statement of n lines without their sums.
fn unsummed_of(n: usize, e: Entries) -> Statement
    ensures { result ≡ unsummed n e }
{
    let windows = e.windows;
    Statement {
        lines: n,
        capped: Kwh(0),
        utilisation: Pence(0),
        availability: e.pence,
        total: e.pence,
        windows,
    }
}

// The tables of a sound book with n lines, and by them the windows' entries. Out of line, and asked for where its result stays: inlined, or handed on in a
// `Result` with the answer of `check_book`, a call for hosts takes 3.5 KB of stack more.
#[inline(never)]
pub fn lay_out(b: &Book, n: usize) -> Prepared
    requires { (sound b.now ≡ true) × (b.now.agreed ≡ true) × Shaped b.now }
    ensures { LaidOut b.now n result }
{
    let k = b.contract;
    let terms = terms_of(k);
    let windows = &b.windows[..b.nwindows];
    let instructions = &b.instructions[..b.ninstructions];
    let mut live = [0; PLACES];
    mark_live(&mut live, windows, instructions, terms, k.recovery);
    let e = availability(
        &live,
        windows,
        windows.len(),
        &b.defaults[..b.ndefaults],
        terms.kw,
        k.availability,
    );
    Prepared {
        statement: unsummed_of(n, e),
        terms,
        live,
    }
}

// 11, 15, 24, 25, 26, or how many lines, before a record is written: `soundness` says whether some list of commands leaves the book.
pub fn check_book(
    b: &Book,
    soundness: bool,
    memory: Lent<'_>,
    room: usize,
) -> Result<usize, Refusal>
    requires { (soundness ≡ sound b.now) × Shaped b.now }
    ensures { MatchResult result
        (Counted b.now (held memory.entry) room)
        (λ e. refusal_for b.now (held memory.entry) room ≡ some (number_of e)) }
{
    refuse_if(!soundness, Refusal::NotReached)?;
    let minutes = memory.room();
    refuse_if(minutes < b.cells(), Refusal::ShortMemory)?;
    refuse_if(!b.closed, Refusal::NotClosed)?;
    let instructions = &b.instructions[..b.ninstructions];
    let s = survey_all(terms_of(b.contract), instructions, memory.meter);
    let n = s.count;
    refuse_if(!s.complete, Refusal::MissingReading)?;
    refuse_if(room < n, Refusal::NoRoom)?;
    Ok(n)
}

// What is prepared of any book, or its refusal. `settle` and `settle_numbers` ask the two above instead: a plan in a `Result`, copied, costs them stack.
pub fn prepare(b: Book, memory: Lent<'_>, room: usize) -> Result<Prepared, Refusal>
    ensures { MatchResult result
        (Prepares b (held memory.entry) room)
        (λ e. refusal_for b (held memory.entry) room ≡ some (number_of e)) }
{
    let n = check_book(&b, b.sound(), memory, room)?;
    Ok(lay_out(&b, n))
}

// The statement with the sums of the lines.
pub fn sum_up(s: Statement, c: Cursor) -> Statement
    requires { Within 100000000000000 c.pence.0 × Within 100000000000000 s.availability.0 }
    ensures { result ≡ summed s c }
{
    Statement {
        capped: c.capped,
        utilisation: c.pence,
        total: c.pence + s.availability,
        ..s
    }
}
