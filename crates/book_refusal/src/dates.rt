// A date under a contract.
ghost use Rattle.std.specs.Prelude.{◌≡◌, max};
ghost use Rattle.rules.specs.Ledger.{full_span};
ghost use Rattle.commands.specs.Refusals.{outcome};
ghost use Rattle.book_refusal.specs.Refusals.{date_refusal};

use book_sound::agreement::full_span;
use calendar::{Date, days_of};
use commands::contract::Contract;
use commands::refusal::{Refusal, refuse_if};

// 15: what a book asks of lent memory, or what the date's own month asks where that is more.
pub fn cells_for_date(cells: usize, k: Contract, d: Date) -> usize
    ensures { result ≡ max cells (full_span k d) }
{
    cells.max(full_span(k, d.month))
}

// 29 and 30, in a book with this date before it, so many windows and instructions, and a reading in its span or none.
#[tactic(auto, unfolding(crate::specs::Refusals::date_refusal, commands::specs::Refusals::outcome, commands::specs::Refusals::refusal_of))]
pub fn date_refusal(
    before: Date,
    windows: usize,
    instructions: usize,
    read: bool,
    k: Contract,
    d: Date,
) -> Result<(), Refusal>
    ensures { result ≡ outcome (date_refusal before windows instructions read k d) }
{
    let late = !before.is_none() | (windows != 0) | (instructions != 0) | read;
    let other = (d.day != Date::DAY_LEAST) | (days_of(d.year, d.month) != k.days);
    refuse_if(late, Refusal::LateDate)?;
    refuse_if(other, Refusal::OtherMonth)
}
