// Lent memory: a cell for each minute's kW and a byte for its revision. The room in both; the cells, here; the bytes; and the readings that go into
// them.
#![tactic(auto)]

pub mod gained;
pub mod lent;
pub mod revisions;
pub mod taking;
pub mod unread;

ghost use Rattle.std.specs.Prelude.{◌≡◌, ◌++◌, ◌≤◌, length, get_or, drop, replicate};
ghost use Rattle.commands.specs.Input.{is_reading};
ghost use Rattle.book_memory.specs.Meter.{missing};

use commands::contract::Contract;
use energy::units::Minutes;

// The range of a reading, in a cell's type.
const LEAST: i32 = Contract::READING_LEAST.0 as i32;

const MOST: i32 = Contract::READING_MOST.0 as i32;

// Whether a cell holds a reading: a kW in a reading's range, which the mark of a minute without one is not. In the cell's own type, so that
// a loop over cells tests several at a time.
pub fn holds_reading(cell: i32) -> bool
    ensures { result ≡ is_reading cell }
{
    (LEAST <= cell) & (cell <= MOST)
}

// A minute's cell, which past the end counts as marked. So `revision_at` of bytes: one over both would be std's chain with the mark as a third parameter.
pub(crate) fn cell_at(meter: &[i32], m: Minutes) -> i32
    ensures { result ≡ get_or meter.now m.0 missing }
{
    meter
        .get(m.0 as usize)
        .copied()
        .unwrap_or(Contract::NO_READING)
}

// Marks the first n cells as minutes without a reading.
pub fn mark(meter: &mut [i32], n: usize)
    requires { n ≤ length meter.old }
    ensures { meter.new ≡ replicate n missing ++ drop n meter.old }
{
    meter[..n].fill(Contract::NO_READING);
}
