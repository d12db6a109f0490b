// Live windows. Their periods stand in a table with a byte for each period of the month: the number of the live window that the period is in, from 1,
// and 0 in none. So a rate is one look, and a default finds its window by its minute.
#![tactic(auto)]

ghost use Rattle.std.specs.Prelude.{◌≡◌, ◌/◌, ◌+◌, ◌≤◌, ◌<◌, ℕ, length, get_or};
ghost use Rattle.commands.specs.Input.{most_minute};
ghost use Rattle.settle_live.specs.Live.{Cleared, Ends, Unmarked, LiveTable, WindowMarked, Windows, is_live, past_to};

use crate::table::mark;
use commands::contract::Contract;
use commands::entries::{Instruction, Window};
use energy::units::Minutes;
use settle_terms::Terms;
use settle_terms::minutes::place_of;

pub mod table;

// How many instructions there can be.
const INSTRUCTIONS: usize = Contract::INSTRUCTIONS_MOST as usize;

// The ends of the instructions, side by side: each window asks all of them, and the compiler tests several at a time; windows that ask
// the instructions themselves take settling 4 % longer. That times and terms fit is a clause of
// the three functions that hand them on: as a struct they would be made of the book's slice and the terms for one call alone.
fn ends_of(instructions: &[Instruction], t: Terms, recovery: Minutes) -> [u16; INSTRUCTIONS]
    requires { Cleared instructions.now t recovery.0 }
    ensures { Ends instructions.now t result }
{
    let mut ends = [0; INSTRUCTIONS];
    for (i, x) in instructions.iter().enumerate() {
        ends[i] = t.end(*x).0;
    }
    ends
}

// Whether an instruction with one of these ends excludes a window that starts at `start`.
fn excluded(ends: &[u16], t: Terms, recovery: Minutes, start: Minutes) -> bool
    requires { (recovery.0 + t.response.0 ≤ 1440) × ((j : ℕ) → j < length ends.now → get_or ends.now j 0 ≤ most_minute) }
    ensures { result ≡ past_to ends.now t recovery.0 start.0 (length ends.now) }
{
    let mut hit = false;
    for end in ends {
        hit |= (*end < start.0) & (start.0 < *end + recovery.0 + t.response.0);
    }
    hit
}

// Whether a window is live: accepted, and excluded by no instruction, whose ends stand beside them.
#[tactic(auto, unfolding(crate::specs::Live::is_live))]
fn is_live(
    w: Window,
    instructions: &[Instruction],
    ends: &[u16],
    t: Terms,
    recovery: Minutes,
) -> bool
    requires { Cleared instructions.now t recovery.0 × Ends instructions.now t ends.now × (length ends.now ≡ length instructions.now) }
    ensures { result ≡ is_live instructions.now t recovery.0 w }
{
    if w.verdict != Contract::ACCEPTED {
        return false;
    }
    if recovery.0 == 0 {
        return true;
    }
    !excluded(ends, t, recovery, w.start)
}

// Marks a window's periods with its number, where it is live.
fn mark_window(live: &mut [u8], w: Window, number: u8, shown: bool)
    requires { (w.start.0 ≤ w.end.0) × (w.end.0 / 30 ≤ length live.old) }
    ensures { WindowMarked w number shown live.old live.new }
{
    if shown {
        mark(live, place_of(w.start), place_of(w.end), number);
    }
}

// Marks the periods of the live ones among the windows.
pub fn mark_live(
    live: &mut [u8],
    windows: &[Window],
    instructions: &[Instruction],
    t: Terms,
    recovery: Minutes,
)
    requires cleared { Cleared instructions.now t recovery.0 }
    requires windows { Windows windows.now (length windows.now) (length live.old) × Unmarked live.old }
    ensures { LiveTable (is_live instructions.now t recovery.0) windows.now (length windows.now) live.new
        × (length live.new ≡ length live.old) }
{
    let all = ends_of(instructions, t, recovery);
    let ends = &all[..instructions.len()];
    for (i, w) in windows.iter().enumerate() {
        let shown = is_live(*w, instructions, ends, t, recovery);
        let number = (i + 1) as u8;
        mark_window(live, *w, number, shown);
    }
}
