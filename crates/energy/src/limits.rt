// How large the numbers are that are paid for. The contract names these as its limits (`commands::contract`), and what a segment delivers follows.
ghost use Rattle.std.specs.Prelude.{◌≡◌};
ghost use Rattle.energy.specs.Answers.{out_of_range};

use std::error::Error;
use std::fmt;

// A number outside its range: what the calls that take any numbers refuse.
#[derive(Clone, Copy, Debug, PartialEq, Eq)]
pub struct OutOfRange;

impl OutOfRange {
    // the number of this refusal
    pub const NUMBER: u8 = 3;

    pub fn number(self) -> u8
        ensures { result ≡ out_of_range }
    {
        OutOfRange::NUMBER
    }
}

impl fmt::Display for OutOfRange {
    fn fmt<W: fmt::Write>(&self, f: &mut fmt::Formatter<W>) -> fmt::Result {
        write!(f, "refused {}", self.number())
    }
}

impl Error for OutOfRange {}

// contracted kW, and readings either way
pub const KW_MOST: i64 = 500000;

// pence per MWh
pub const RATE_MOST: u32 = 1000000;

// P, the windows at fault that lower what a period is paid
pub const P_MOST: u32 = 30;

// kWh of a segment, either way: 30 minutes, each at most 500,000 kW from a base load that is 500,000 kW at most on the other side of 0. No operand gives kWh,
// so the paper states no range of them.
pub const KWH_LEAST: i64 = -500000;

pub const KWH_MOST: i64 = 500000;
