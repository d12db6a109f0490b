// The hour that a dated month gains: its cells stand after those of the month's days.
ghost use Rattle.std.specs.Prelude.{◌≡◌, ◌+◌, ◌*◌, ◌≤◌};
ghost use Rattle.calendar.specs.Calendar.{days_of, gained_in};
ghost use Rattle.book_memory.specs.Lent.{Becomes, held_mut};
ghost use Rattle.book_memory.specs.Meter.{room_in, marked_from};

use crate::lent::LentMut;
use crate::mark;
use crate::revisions::clear;
use calendar::{Date, days_of, gained};
use commands::contract::Contract;

// Marks the hour's cells and clears their bytes. Of a month that gains none, nothing is written.
#[tactic(auto, using(crate::proofs::Lengths::room_cells, crate::proofs::Lengths::room_revisions))]
pub fn mark_gained(d: Date, memory: &mut LentMut<'_>)
    requires { 1440 * days_of d.year d.month + gained_in d.month ≤ room_in (held_mut memory.old) }
    ensures { Becomes memory.old (marked_from (1440 * days_of d.year d.month) (gained_in d.month) (held_mut memory.old)) memory.new }
{
    let at = Contract::DAY.0 as usize * days_of(d.year, d.month) as usize;
    let n = gained(d.month);
    mark(&mut memory.meter[at..], n);
    clear(&mut memory.revisions[at..], n);
}
