// The totals that the screen shows after a minute.
ghost use Rattle.std.specs.Prelude.{◌≡◌, ◌≤◌, pos};
ghost use Rattle.commands.specs.Input.{from_to_ℤ};
ghost use Rattle.watch_step.specs.Step.{about, no_totals, totals_fit};

use commands::contract::Contract;
use energy::limits;
use energy::units::{Kwh, Minutes, Pence};

// The most of a base load, in quarter kW, and of what a minute expects, in quarter kW-minutes.
const QUARTERS_MOST: u64 = 4 * limits::KW_MOST as u64;

// The most of what a minute delivers, either way: a reading at one end of its range over a base load at the other.
const DELIVERED_MOST: u64 = 2 * QUARTERS_MOST;

// The most of a line's kWh, and of its pence: a line has a minute at least.
const LINE_KWH: u64 = limits::KWH_MOST as u64;

const LINE_PENCE: u64 = LINE_KWH * limits::RATE_MOST as u64 / 1000;

// All zeros before the first step.
#[derive(Clone, Copy, Debug, PartialEq, Eq)]
pub struct Totals {
    // the last step's instruction, from 1, and its minute
    pub instruction: u32,
    pub minute: Minutes,
    // the base load of that instruction in quarter kW: the sum of its four readings
    pub base: i32,
    // the two sums of the segment so far, in quarter kW-minutes, not rounded
    pub expected: i32,
    pub delivered: i32,
    // of the lines complete
    pub capped: Kwh,
    pub pence: Pence,
}

// Before the first step.
impl Default for Totals {
    ghost is_default = { λ s. s ≡ no_totals };

    fn default() -> Totals {
        Totals {
            instruction: 0,
            minute: Minutes(0),
            base: 0,
            expected: 0,
            delivered: 0,
            capped: Kwh(0),
            pence: Pence(0),
        }
    }
}

// Whether z is from -n to n.
fn is_about(n: u64, z: i64) -> bool
    requires { n ≤ 100000000000000 }
    ensures { result ≡ about n z }
{
    let most = n as i64;
    (0 - most <= z) & (z <= most)
}

// Whether z is from 0 to n.
fn is_upto(n: u64, z: i64) -> bool
    requires { n ≤ 100000000000000 }
    ensures { result ≡ from_to_ℤ (pos 0) (pos n) z }
{
    (0 <= z) & (z <= n as i64)
}

// Whether totals are no larger than the minutes so far let them be: those of the period for the two sums, those of the month for the lines.
// Totals of the caller's own making that are larger are not added to.
pub fn totals_fit(s: Totals) -> bool
    ensures { result ≡ totals_fit s }
{
    let minute = s.minute.0;
    let inside = (minute % Contract::PERIOD.0) as u64 + 1;
    let passed = minute as u64 + 1;
    is_about(QUARTERS_MOST, s.base as i64)
        & is_upto(QUARTERS_MOST * inside, s.expected as i64)
        & is_about(DELIVERED_MOST * inside, s.delivered as i64)
        & is_about(LINE_KWH * passed, s.capped.0)
        & is_about(LINE_PENCE * passed, s.pence.0)
}
