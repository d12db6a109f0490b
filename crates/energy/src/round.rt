// Rounding to the nearest, a half to the larger: all that the crate rounds goes through here.
ghost use Rattle.std.specs.Prelude.{◌≡◌, ◌+◌, ◌<◌, ◌^◌, pos};
ghost use Rattle.energy.specs.Answers.{rounded};
ghost use Rattle.energy.specs.Number.{nearest as nearest_to};

use crate::limits::OutOfRange;

// n / d to the nearest for any numbers: the divisor 0 is refused.
pub fn nearest(n: i64, d: u32) -> Result<i64, OutOfRange>
    ensures { result ≡ rounded n d }
{
    if 1 <= d {
        return Ok(quotient(n, d));
    }
    Err(OutOfRange)
}

// The same where the divisor is known not to be 0. The remainder decides, so that no n is too large.
pub fn quotient(n: i64, d: u32) -> i64
    requires { 0 < d }
    ensures { result ≡ nearest_to n d }
{
    let m = d as i64;
    let q = n / m;
    let r = n % m;
    if 2 * r >= m {
        return q + 1;
    }
    if 2 * r < 0 - m {
        return q - 1;
    }
    q
}

// The same in one division, for a number that is not negative: half of d is added, and the quotient rounds down.
pub fn half_up(n: u64, d: u64) -> u64
    requires { (0 < d) × (n + d < 2 ^ 64) }
    ensures { pos result ≡ nearest_to (pos n) d }
{
    (n + d / 2) / d
}
