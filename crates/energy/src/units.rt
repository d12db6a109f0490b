// The four kinds of number. Each has a type of its own, so that none stands in for another; `+` takes two of one kind, and asks that their sum fits.
ghost use Rattle.std.specs.Prelude.{◌≡◌, ◌*◌, ◌≤◌, nat_abs, pos, ◌+ℤ◌};
ghost use Rattle.energy.specs.Number.{Upto, Within};

use std::ops::{Add, Mul};

// Power in kW: a reading, or what a contract offers.
#[derive(Clone, Copy, Debug, PartialEq, Eq, PartialOrd, Ord)]
pub struct Kw(pub i64);

// Energy in kWh.
#[derive(Clone, Copy, Debug, PartialEq, Eq, PartialOrd, Ord)]
pub struct Kwh(pub i64);

// Money in pence.
#[derive(Clone, Copy, Debug, PartialEq, Eq, PartialOrd, Ord)]
pub struct Pence(pub i64);

// A minute of the month, from 0 at its first midnight, or a number of minutes.
#[derive(Clone, Copy, Debug, PartialEq, Eq, PartialOrd, Ord)]
pub struct Minutes(pub u16);

// A sum for each unit: one over both would need a trait that reaches the number in a unit and makes one of it, which is longer than the second sum.
impl Add for Kwh {
    type Output = Kwh;

    ghost can_add = { λ a b. Within 100000000000000 a.0 × Within 100000000000000 b.0 };

    ghost add_gives = { λ a b r. r.0 ≡ a.0 +ℤ b.0 };

    fn add(self, other: Kwh) -> Kwh {
        Kwh(self.0 + other.0)
    }
}

impl Add for Pence {
    type Output = Pence;

    ghost can_add = { λ a b. Within 100000000000000 a.0 × Within 100000000000000 b.0 };

    ghost add_gives = { λ a b r. r.0 ≡ a.0 +ℤ b.0 };

    fn add(self, other: Pence) -> Pence {
        Pence(self.0 + other.0)
    }
}

// The same amount n times.
impl Mul<u32> for Pence {
    type Output = Pence;

    ghost can_mul = { λ a n. Upto 250000000 a.0 × (n ≤ 400000) };

    ghost mul_gives = { λ a n r. r.0 ≡ pos (n * nat_abs a.0) };

    fn mul(self, n: u32) -> Pence {
        let pence = (n as u64 * self.0 as u64) as i64;
        Pence(pence)
    }
}
