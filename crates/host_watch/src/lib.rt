// A step over a host's plain numbers: its totals stand in memory that the host lends, and are altered where the step is taken only.
#![tactic(auto)]

ghost use Rattle.std.specs.Prelude.{◌≡◌, true, false, ◌++◌, ◌≤◌, MatchOption, drop, length};
ghost use Rattle.host_watch.specs.StepNumbers.{are_totals, numbers_of, step_numbers, stepped_numbers, total_count, totals_in};

use commands::entries::Reading;
use energy::units::{Kw, Kwh, Minutes, Pence};
use watch_step::step::{NotStepped, step};
use watch_step::totals::Totals;

// How many numbers totals are.
pub const TOTALS: usize = 7;

// The totals that the memory holds: seven numbers at least, the first five each in the range of its type. `TryFrom<&[i64]>` could stand only beside `Totals`, where
// no host is known.
fn totals_in(totals: &[i64]) -> Option<Totals>
    ensures { MatchOption result (are_totals totals.now ≡ false) (λ s. (are_totals totals.now ≡ true) × (s ≡ totals_in totals.now)) }
{
    let [
        instruction,
        minute,
        base,
        expected,
        delivered,
        capped,
        pence,
        ..
    ] = totals
    else {
        return None;
    };
    let instruction = u32::try_from(*instruction).ok()?;
    let minute = u16::try_from(*minute).ok()?;
    let base = i32::try_from(*base).ok()?;
    let expected = i32::try_from(*expected).ok()?;
    let delivered = i32::try_from(*delivered).ok()?;
    Some(Totals {
        instruction,
        minute: Minutes(minute),
        base,
        expected,
        delivered,
        capped: Kwh(*capped),
        pence: Pence(*pence),
    })
}

// Totals in place of those before; numbers after them keep their contents.
fn put_totals(totals: &mut [i64], s: Totals)
    requires { total_count ≤ length totals.old }
    ensures { totals.new ≡ numbers_of s ++ drop total_count totals.old }
{
    // stored one by one: `copy_from_slice` from an array takes a step from 1.53 to 1.61 of a plain program's time
    totals[0] = s.instruction as i64;
    totals[1] = s.minute.0 as i64;
    totals[2] = s.base as i64;
    totals[3] = s.expected as i64;
    totals[4] = s.delivered as i64;
    totals[5] = s.capped.0;
    totals[TOTALS - 1] = s.pence.0;
}

// One step over the month's numbers: the answer's number, and the totals after it in the memory where it is taken.
#[tactic(auto, using(crate::proofs::TotalsHeld::held_long, watch_step::proofs::Widths::plain), unfolding(crate::specs::StepNumbers::step_numbers))]
pub fn step_numbers(
    month: &[u32],
    totals: &mut [i64],
    instruction: u32,
    minute: u16,
    kw: i32,
    base: &[i32],
) -> u8
    ensures { stepped_numbers result totals.new
        ≡ step_numbers month.now totals.old instruction (record { minute = record { 0 = minute }; kw = record { 0 = kw } })
        base.now }
{
    let Some(before) = totals_in(totals) else {
        return NotStepped::Unfit.number();
    };
    let reading = Reading {
        minute: Minutes(minute),
        kw: Kw(kw as i64),
    };
    match step(month, before, instruction, reading, base) {
        Ok(after) => {
            put_totals(totals, after);
            0
        }
        Err(e) => e.number(),
    }
}
