// What a settlement states: a line for each segment, an entry for each window, and the totals.
use energy::units::{Kwh, Pence};

// The most lines that a month gives, an October with its hour more, and those that 11 days give, for which the lister has records: `most_lines` and
// `most_listed` of the rules.
pub const LINES_MOST: usize = 1681;

pub const LISTED_MOST: usize = 719;

// The stage of an active minute: ramp up, steady, ramp down.
#[derive(Clone, Copy, Debug, PartialEq, Eq)]
pub enum Stage {
    Up,
    Steady,
    Down,
}

#[derive(Clone, Copy, Debug, PartialEq, Eq)]
pub enum Rate {
    Utilisation,
    Optional,
}

// One segment of an instruction. Instructions and periods count from 1.
#[derive(Clone, Copy, Debug, PartialEq, Eq)]
pub struct Line {
    pub instruction: u32,
    pub period: u32,
    pub stage: Stage,
    pub rate: Rate,
    pub expected: Kwh,
    pub delivered: Kwh,
    pub capped: Kwh,
    pub pence: Pence,
}

// The paid periods of a window.
#[derive(Clone, Copy, Debug, PartialEq, Eq)]
pub struct Available {
    pub periods: u32,
    pub pence: Pence,
}

// The number of lines, the totals, and an entry for each place in the table of windows.
#[derive(Clone, Copy, Debug, PartialEq, Eq)]
pub struct Statement {
    pub lines: usize,
    pub capped: Kwh,
    pub utilisation: Pence,
    pub availability: Pence,
    pub total: Pence,
    pub windows: [Available; 128],
}
