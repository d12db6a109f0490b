// What is lent for a book's readings: meter memory, a cell for each minute's kW, and revision memory, a byte for each minute's revision. Both always
// go together: `Lent` where they are read, `LentMut` where they are written.
ghost use Rattle.std.specs.Prelude.{◌≡◌, ◌≤◌, ltb, take};
ghost use Rattle.rules.specs.Refusal.{not_above};
ghost use Rattle.book_memory.specs.Lent.{held, held_mut};
ghost use Rattle.book_memory.specs.Meter.{lent, metered_at, room_in};

use crate::revisions::revision_at;
use crate::{cell_at, holds_reading};
use energy::units::Minutes;

#[derive(Clone, Copy)]
pub struct Lent<'a> {
    pub meter: &'a [i32],
    pub revisions: &'a [u8],
}

#[derive(Drop)]
pub struct LentMut<'a> {
    pub meter: &'a mut [i32],
    pub revisions: &'a mut [u8],
}

impl Lent<'_> {
    // The minutes that both have room for: the lesser of both lengths.
    #[tactic(auto, unfolding(crate::specs::Meter::room_in))]
    pub fn room(self) -> usize
        ensures { result ≡ room_in (held self.entry) }
    {
        self.meter.len().min(self.revisions.len())
    }

    // Whether both have room for a minute. Asked of each length by itself, so that the compiler asks neither again where the minute's cell and byte
    // are read.
    #[tactic(auto, using(std::proofs::lemmas::Bool::Decides::nat_tests), unfolding(crate::specs::Meter::room_in))]
    pub fn has_room(self, at: usize) -> bool
        ensures { result ≡ ltb at (room_in (held self.entry)) }
    {
        (at < self.meter.len()) & (at < self.revisions.len())
    }

    // Whether a minute holds a reading of this revision or one above it: a plain reading, of revision 0, is turned down by any. The byte of a minute
    // without a reading means nothing.
    pub fn not_above(self, number: u8, m: Minutes) -> bool
        ensures { result ≡ not_above number (metered_at (held self.entry) m.0) }
    {
        holds_reading(cell_at(self.meter, m)) & (number <= revision_at(self.revisions, m))
    }
}

impl<'a> Lent<'a> {
    // Both, for the first n minutes.
    #[tactic(auto, unfolding(crate::specs::Meter::room_in))]
    pub fn first(self, n: usize) -> Lent<'a>
        requires { n ≤ room_in (held self) }
        ensures { held result ≡ lent (take n self.entry.meter.now) (take n self.entry.revisions.now) }
    {
        Lent {
            meter: &self.meter[..n],
            revisions: &self.revisions[..n],
        }
    }
}

impl LentMut<'_> {
    // The same, to be read.
    pub fn read(&self) -> Lent<'_>
        ensures { held result ≡ held_mut self.now }
    {
        Lent {
            meter: &*self.meter,
            revisions: &*self.revisions,
        }
    }
}
