// The two sums of a segment, in quarter kW-minutes: what its minutes expect, and what they deliver over the base load.
ghost use Rattle.std.specs.Prelude.{◌≡◌, ◌≤◌, nat_abs};
ghost use Rattle.energy.specs.Energy.{Readable, cell, delivered_in, expected_in};
ghost use Rattle.energy.specs.Lists.{between, sum};
ghost use Rattle.energy.specs.Number.{Upto, Within};

use crate::units::{Kw, Minutes};

// The sum of the readings from minute `from` to `to` - 1. A period's sum fits i32, and the compiler adds several cells at a time.
pub fn total(meter: &[i32], from: usize, to: usize) -> i32
    requires { Readable meter.now from to }
    ensures { result ≡ sum (cell meter.now) (between from to) }
{
    let mut sum = 0;
    for reading in &meter[from..to] {
        sum += *reading;
    }
    sum
}

// What the minutes `from` to `to` - 1 deliver over the base load `base`, the sum of four readings. The base load is taken off once, not in each minute.
// Its bound is a clause, since C lends and keeps it as a plain number.
pub fn delivered(kind: u8, base: i32, meter: &[i32], from: usize, to: usize) -> i32
    requires readable { Readable meter.now from to }
    requires within { Within 2000000 base }
    ensures { (result ≡ delivered_in kind base meter.now from to) × Within 120000000 result }
{
    let sum = total(meter, from, to);
    let above = 4 * sum - (to - from) as i32 * base;
    if kind == 0 {
        return above;
    }
    0 - above
}

// What so many minutes of one stage expect, steady or on a ramp.
pub fn expected(kw: Kw, steady: bool, minutes: Minutes) -> u32
    requires { Upto 500000 kw.0 × (minutes.0 ≤ 30) }
    ensures { (result ≡ expected_in (nat_abs kw.0) steady minutes.0) × (result ≤ 60000000) }
{
    let power = kw.0 as u32;
    let n = minutes.0 as u32;
    if steady {
        return n * (4 * power);
    }
    n * (2 * power)
}
