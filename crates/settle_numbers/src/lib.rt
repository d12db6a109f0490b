// Settling a book for a host that cannot hold records of enums: each line is eight numbers, the fields of its row in their order.
#![tactic(auto)]

ghost use Rattle.std.specs.Prelude.{◌≡◌};
ghost use Rattle.book_memory.specs.Lent.{held};
ghost use Rattle.settle_numbers.specs.Numbers.{number_book, numbers_of, rate_number, stage_number};

use book::Book;
use book_memory::lent::Lent;
use commands::refusal::Refusal;
use rules::statement::{Line, Rate, Stage, Statement};
use settle::prepare::{check_book, lay_out, sum_up};
use settle_lines::cursor::Walk;

// How many numbers a line is.
const LINE_NUMBERS: usize = 8;

// A stage as a number. No `From` of it, nor of a rate: it could stand in `rules` alone, and `i64::from(stage)` would not say whether it is a host's number or the lister's letter.
fn stage_number(s: Stage) -> i64
    ensures { result ≡ stage_number s }
{
    match s {
        Stage::Up => 0,
        Stage::Steady => 1,
        Stage::Down => 2,
    }
}

// A rate as a number.
fn rate_number(r: Rate) -> i64
    ensures { result ≡ rate_number r }
{
    match r {
        Rate::Utilisation => 0,
        Rate::Optional => 1,
    }
}

// The numbers of a line.
#[tactic(auto, unfolding(crate::specs::Numbers::numbers_of))]
fn numbers_of(l: Line) -> [i64; LINE_NUMBERS]
    ensures { result ≡ numbers_of l }
{
    [
        i64::from(l.instruction),
        i64::from(l.period),
        stage_number(l.stage),
        rate_number(l.rate),
        l.expected.0,
        l.delivered.0,
        l.capped.0,
        l.pence.0,
    ]
}

// Settles a book over lent memory, each line as eight numbers in the first of those lent. A loop of its own, as `settle_records` has one: over chunks of
// eight, lent by std, nothing is said of what the numbers hold afterwards. Numbers after them keep their contents; a refusal alters none.
pub fn settle_numbers(b: Book, memory: Lent<'_>, numbers: &mut [i64]) -> Result<Statement, Refusal>
    ensures value { result ≡ (number_book b (held memory.entry) numbers.old).answer }
    ensures numbers_after { numbers.new ≡ (number_book b (held memory.entry) numbers.old).memory }
{
    let room = numbers.len() / LINE_NUMBERS;
    let n = check_book(&b, b.sound(), memory, room)?;
    let p = lay_out(&b, n);
    let walk = Walk {
        terms: p.terms,
        instructions: &b.instructions[..b.ninstructions],
        live: &p.live,
        meter: memory.meter,
    };
    let mut c = walk.first();
    for k in 0..n {
        let s = walk.step(c);
        let at = LINE_NUMBERS * k;
        numbers[at..at + LINE_NUMBERS].copy_from_slice(&numbers_of(s.line));
        c = s.next;
    }
    Ok(sum_up(p.statement, c))
}
