// What a step needs of a month, as a table of numbers that the caller keeps: five figures, the times of 64 instructions in five columns, and a
// number for each period, 0 where no live window has it. Plain numbers can be lent; each is a kW or a minute from the moment it is read.
ghost use Rattle.std.specs.Prelude.{◌≡◌, true, false, ◌+◌, ◌≤◌, MatchResult, get_or, length};
ghost use Rattle.watch_step.specs.Month.{count_at, kw_at, live_at, month_numbers, optional_at, utilisation_at};
ghost use Rattle.watch_step.specs.Step.{cut_before, is_there, month_fits, price_at};

use crate::step::NotStepped;
use commands::contract::Contract;
use energy::limits;

// The most contracted kW, as a number of the table.
const KW_MOST: u32 = limits::KW_MOST as u32;

// The most instructions, as a number of the table.
pub(crate) const INSTRUCTIONS_MOST: u32 = Contract::INSTRUCTIONS_MOST as u32;

// The minutes of a period.
const PERIOD: u32 = Contract::PERIOD.0 as u32;

// The places of the figures.
pub const KW: usize = 0;

pub const KIND: usize = 1;

pub const UTILISATION: usize = 2;

pub const OPTIONAL: usize = 3;

pub const INSTRUCTIONS: usize = 4;

// The columns of times, issue, e - U, e, cease and f: that of instruction n, from 1, stands n places after these. No step looks at the issue: from
// it a host knows which readings the base load counts.
pub const ISSUES: usize = 4;

pub const STARTS: usize = 68;

pub const EXPIRIES: usize = 132;

pub const CEASES: usize = 196;

pub const ENDS: usize = 260;

// The place of the first period's number, and how many there are: those of the longest month and one more.
pub const PERIODS: usize = 325;

pub const MONTH_PERIODS: usize = 1491;

// All numbers of a month.
pub const MONTH_NUMBERS: usize = 1816;

// Whether a month has all its numbers, and its figures are in their ranges.
#[tactic(auto, unfolding(crate::specs::Step::month_fits))]
fn month_fits(month: &[u32]) -> bool
    ensures { result ≡ month_fits month.now }
{
    if month.len() < MONTH_NUMBERS {
        return false;
    }
    let kw = month[KW];
    let utilisation = month[UTILISATION];
    let optional = month[OPTIONAL];
    let instructions = month[INSTRUCTIONS];
    (kw <= KW_MOST)
        & (utilisation <= Contract::RATE_MOST)
        & (optional <= Contract::RATE_MOST)
        & (instructions <= INSTRUCTIONS_MOST)
}

// The numbers of a month: all of them, with the figures in their ranges.
#[derive(Clone, Copy)]
pub(crate) struct Month<'a> {
    pub(crate) numbers: &'a [u32],
    ghost long: { month_numbers ≤ length numbers.now },
    ghost kw: { kw_at numbers.now ≤ 500000 },
    ghost utilisation: { utilisation_at numbers.now ≤ 1000000 },
    ghost optional: { optional_at numbers.now ≤ 1000000 },
    ghost instructions: { count_at numbers.now ≤ 64 },
}

impl<'a> Month<'a> {
    // Of these numbers, where they are a month's.
    pub(crate) fn of(numbers: &'a [u32]) -> Result<Self, NotStepped>
        ensures { MatchResult result (λ m. (m.numbers.now ≡ numbers.now) × (month_fits numbers.now ≡ true))
            (λ e. (e ≡ NotStepped.Unfit) × (month_fits numbers.now ≡ false)) }
    {
        if month_fits(numbers) {
            return Ok(Month { numbers });
        }
        Err(NotStepped::Unfit)
    }

    // Whether minute m is in a live window.
    fn live_at(self, m: u32) -> bool
        ensures { result ≡ live_at self.entry.numbers.now m }
    {
        let period = (m / PERIOD) as usize;
        if period < MONTH_PERIODS {
            return self.numbers[PERIODS + period] != 0;
        }
        false
    }

    // Instruction n, from 1, where it is there.
    pub(crate) fn called(self, n: u32) -> Result<Called<'a>, NotStepped>
        ensures { MatchResult result
            (λ i. (i.month.numbers.now ≡ self.entry.numbers.now) × (i.n ≡ n) × (is_there self.entry.numbers.now n ≡ true))
            (λ e. (e ≡ NotStepped.NoInstruction) × (is_there self.entry.numbers.now n ≡ false)) }
    {
        if (1..=self.numbers[INSTRUCTIONS]).contains(&n) {
            return Ok(Called { month: self, n });
        }
        Err(NotStepped::NoInstruction)
    }
}

// Instruction n, from 1, of a month: one that is there.
#[derive(Clone, Copy)]
pub(crate) struct Called<'a> {
    pub(crate) month: Month<'a>,
    pub(crate) n: u32,
    ghost few: { n ≤ 64 },
}

impl Called<'_> {
    // Its time in a column.
    pub(crate) fn time_at(self, column: usize) -> u32
        requires { column ≤ 260 }
        ensures { result ≡ get_or self.entry.month.numbers.now (column + self.entry.n) 0 }
    {
        self.month.numbers[column + self.n as usize]
    }

    // The pence per MWh of minute m: by its own window, or by the one that pays for its ramp.
    #[tactic(auto, unfolding(crate::specs::Step::price_at))]
    pub(crate) fn price_at(self, m: u32) -> u32
        ensures { (result ≡ price_at self.entry.month.numbers.now self.entry.n m) × (result ≤ 1000000) }
    {
        let month = self.month;
        let expiry = self.time_at(EXPIRIES);
        let cease = self.time_at(CEASES);
        let here = month.live_at(m);
        let before = (m < expiry) & month.live_at(expiry);
        let after = (cease <= m) & month.live_at(cease.saturating_sub(1));
        if (here | before) | after {
            return month.numbers[UTILISATION];
        }
        month.numbers[OPTIONAL]
    }

    // Whether a segment does not go on into minute m: a period or a stage begins there, or it is f.
    #[tactic(auto, unfolding(crate::specs::Step::cut_before))]
    pub(crate) fn cut_before(self, m: u32) -> bool
        ensures { result ≡ cut_before self.entry.month.numbers.now self.entry.n m }
    {
        let expiry = self.time_at(EXPIRIES);
        let cease = self.time_at(CEASES);
        let end = self.time_at(ENDS);
        (m % PERIOD == 0) | (m == expiry) | (m == cease) | (m == end)
    }
}
