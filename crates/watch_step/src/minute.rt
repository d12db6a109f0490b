// What one minute adds to its segment's two sums, in quarter kW-minutes, and what the segment's line counts and pays.
ghost use Rattle.std.specs.Prelude.{◌≡◌, false, cond, pos, ◌+ℤ◌};
ghost use Rattle.energy.specs.Energy.{capped, delivers, kwh, payment};
ghost use Rattle.energy.specs.Number.{Within, Upto};
ghost use Rattle.watch_step.specs.Step.{expects_at, price_at};

use crate::month::{CEASES, Called, EXPIRIES, KW};
use energy::money::{capped_kwh, delivered_kwh, expected_kwh, payment_pence};
use energy::quarters::expected;
use energy::units::{Kw, Kwh, Minutes, Pence};

impl Called<'_> {
    // What minute m expects.
    pub(crate) fn expects_at(self, m: u32) -> i32
        ensures { (result ≡ expects_at self.entry.month.numbers.now self.entry.n m) × Upto 2000000 result }
    {
        let expiry = self.time_at(EXPIRIES);
        let cease = self.time_at(CEASES);
        let steady = (expiry <= m) & (m < cease);
        let kw = self.month.numbers[KW];
        expected(Kw(kw as i64), steady, Minutes(1)) as i32
    }

    // The pence of the line that a segment ends with, whose last minute is m: 0 where it does not end.
    #[inline(always)]
    pub(crate) fn line_pence(self, ends: bool, m: u32, k: Kwh) -> Pence
        requires { Within 500000 k.0 }
        ensures { (result.0 ≡ cond ends (payment k.0 (price_at self.entry.month.numbers.now self.entry.n m)) (pos 0)) × Within 500000000 result.0 }
    {
        if ends {
            return payment_pence(k, self.price_at(m));
        }
        Pence(0)
    }
}

// What a minute with this reading delivers over the base load, whose bound is a clause as in `energy::quarters`.
pub(crate) fn delivered_in(kind: u32, base: i32, kw: Kw) -> i32
    requires { Within 2000000 base × Within 500000 kw.0 }
    ensures { (result ≡ delivers kind base kw.0) × Within 4000000 result }
{
    let above = 4 * kw.0 as i32 - base;
    if kind == 0 {
        return above;
    }
    0 - above
}

// A segment's sum with one minute more: begun anew where the segment begins with it.
pub(crate) fn sum_with(fresh: bool, sum: i32, minute: i32) -> i32
    requires { ((fresh ≡ false) → Within 116000000 sum) × Within 4000000 minute }
    ensures { result ≡ cond fresh (pos 0) sum +ℤ minute }
{
    if fresh {
        return minute;
    }
    sum + minute
}

// The capped kWh of the line that a segment ends with, from its two sums: 0 where it does not end.
pub(crate) fn line_kwh(ends: bool, x: i32, d: i32) -> Kwh
    requires { Upto 60000000 x × Within 120000000 d }
    ensures { (result.0 ≡ cond ends (capped (kwh x) (kwh d)) (pos 0)) × Within 500000 result.0 }
{
    if ends {
        return capped_kwh(expected_kwh(x as u32), delivered_kwh(d));
    }
    Kwh(0)
}
