// Energy and money: the four kinds of number, rounding, energy and pence. Everything else builds on these promises.
#![tactic(auto)]

pub mod limits;
pub mod money;
pub mod quarters;
pub mod ramp;
pub mod round;
pub mod units;
