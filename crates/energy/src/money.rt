// Quarter kW-minutes as kWh, and kWh as pence. What may be negative is first raised by so many wholes that it is not, and these are taken off the
// rounded number again: a single unsigned division then rounds. Bounds are asked here and no part of the types, which document 01 names and which hold any number.
ghost use Rattle.std.specs.Prelude.{◌≡◌, ◌≤◌, nat_abs, pos};
ghost use Rattle.energy.specs.Answers.{paid_for, paid_for_period};
ghost use Rattle.energy.specs.Energy.{capped, kwh, payment, pence_of_parts, period_parts};
ghost use Rattle.energy.specs.Number.{Upto, Within, down, lesser};

use crate::limits::{KW_MOST, KWH_LEAST, KWH_MOST, OutOfRange, P_MOST, RATE_MOST};
use crate::round::{half_up, quotient};
use crate::units::{Kw, Kwh, Pence};

// The kWh expected of a segment.
pub fn expected_kwh(q: u32) -> Kwh
    requires { q ≤ 120000000 }
    ensures { (result.0 ≡ kwh (pos q)) × Within 500000 result.0 }
{
    let k = half_up(q as u64, 240) as i64;
    Kwh(k)
}

// The kWh delivered in a segment, raised by 500,000 kWh.
pub fn delivered_kwh(q: i32) -> Kwh
    requires { Within 120000000 q }
    ensures { (result.0 ≡ kwh q) × Within 500000 result.0 }
{
    let raised = (q + 120000000) as u64;
    let k = half_up(raised, 240) as i64 - 500000;
    Kwh(k)
}

// The lesser of the two, or 0 if that is below 0: a segment that runs backwards earns and costs nothing.
pub fn capped_kwh(x: Kwh, d: Kwh) -> Kwh
    requires { Within 500000 x.0 × Within 500000 d.0 }
    ensures { (result.0 ≡ capped x.0 d.0) × Within 500000 result.0 }
{
    Kwh(x.0.min(d.0).max(0))
}

// The pence for kWh at a rate in pence per MWh, raised by 500,000,000 pence.
pub fn payment_pence(k: Kwh, rate: u32) -> Pence
    requires within { Within 500000 k.0 }
    requires rate_bound { rate ≤ 1000000 }
    ensures { (result.0 ≡ payment k.0 rate) × Within 500000000 result.0 }
{
    let raised = (k.0 * rate as i64 + 500000000000) as u64;
    let pence = half_up(raised, 1000) as i64 - 500000000;
    Pence(pence)
}

// The pence of a paid period.
pub fn period_pence(kw: Kw, rate: u32, p: u32) -> Pence
    requires { Upto 500000 kw.0 × (rate ≤ 1000000) × (p ≤ 30) }
    ensures { (result.0 ≡ pence_of_parts (period_parts (nat_abs kw.0) rate p)) × Within 250000000 result.0 × (down result.0 ≡ 0) }
{
    let parts = kw.0 as u64 * rate as u64 * (100 - p) as u64;
    let pence = half_up(parts, 200000) as i64;
    Pence(pence)
}

// Quarter kW-minutes as kWh, for any number of them.
pub fn kwh_of(quarters: i64) -> Kwh
    ensures { result.0 ≡ kwh quarters }
{
    let k = quotient(quarters, 240);
    Kwh(k)
}

// The pence for kWh at a rate, for any numbers: refused for kWh that no segment has, or a rate that no contract has.
pub fn pay(capped: Kwh, rate: u32) -> Result<Pence, OutOfRange>
    ensures { result ≡ paid_for capped.0 rate }
{
    let k = capped.0;
    if (KWH_LEAST <= k) & (k <= KWH_MOST) & (rate <= RATE_MOST) {
        return Ok(payment_pence(capped, rate));
    }
    Err(OutOfRange)
}

// The pence of a period, for any numbers: refused for kW below 0 or above every contract's, a rate that no contract has, or a P above its limit.
pub fn pay_period(kw: Kw, rate: u32, p: u32) -> Result<Pence, OutOfRange>
    ensures { result ≡ paid_for_period kw.0 rate p }
{
    let power = kw.0;
    if (0 <= power) & (power <= KW_MOST) & (rate <= RATE_MOST) & (p <= P_MOST) {
        return Ok(period_pence(kw, rate, p));
    }
    Err(OutOfRange)
}
