// Settling a book into records of its own, handed back by value: for a caller that lends none.
ghost use Rattle.std.specs.Prelude.{◌≡◌};
ghost use Rattle.book_memory.specs.Lent.{held};
ghost use Rattle.settle_records.specs.Listed.{list_book, no_line};

use crate::Listing;
use crate::lent::settle;
use book::Book;
use book_memory::lent::Lent;
use commands::refusal::Refusal;
use energy::units::{Kwh, Pence};
use rules::statement::{LISTED_MOST, Line, Rate, Stage};

// A record before it holds a line.
pub fn blank() -> Line
    ensures { result ≡ no_line }
{
    Line {
        instruction: 0,
        period: 0,
        stage: Stage::Up,
        rate: Rate::Utilisation,
        expected: Kwh(0),
        delivered: Kwh(0),
        capped: Kwh(0),
        pence: Pence(0),
    }
}

// Settles a book over lent memory into as many records as 11 days give lines at most.
pub fn listed(b: Book, memory: Lent<'_>) -> Result<Listing, Refusal>
    ensures { result ≡ list_book b (held memory.entry) }
{
    let mut lines = [blank(); LISTED_MOST];
    let statement = settle(b, memory, &mut lines)?;
    Ok(Listing { statement, lines })
}
