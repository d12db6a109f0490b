// One step: the totals after one more active minute.
ghost use Rattle.std.specs.Prelude.{◌≡◌, true, false, ◌+◌, MatchResult};
ghost use Rattle.energy.specs.Number.{Within};
ghost use Rattle.commands.specs.Input.{is_reading};
ghost use Rattle.watch_step.specs.Step.{advanced, are_base, are_readings, base_now, is_next, refused_number, step_of, totals_fit};

use crate::minute::{delivered_in, line_kwh, sum_with};
use crate::month::{Called, ENDS, INSTRUCTIONS_MOST, KIND, Month, STARTS};
use crate::totals::{Totals, totals_fit};
use commands::contract::Contract;
use commands::entries::Reading;
use energy::quarters::total;
use energy::units::Kw;

// Why a step is not taken, each with its number for hosts, who have 0 for a step that is taken.
#[derive(Clone, Copy, Debug, PartialEq, Eq)]
pub enum NotStepped {
    // a month or totals that are none
    Unfit = 101,
    // an instruction that is not there
    NoInstruction = 102,
    // a minute that is not the next active one
    NotNext = 103,
    // a reading outside its range, or no four base readings where they are due
    NoReading = 104,
}

impl NotStepped {
    // A method and no `From`: `u8::from(e)` would not say that it is this number.
    pub fn number(self) -> u8
        ensures { result ≡ refused_number self }
    {
        self as u8
    }
}

// Whether minute m of instruction i is the next active one.
#[tactic(auto, unfolding(crate::specs::Step::is_next))]
fn is_next(i: Called, s: Totals, m: u32) -> bool
    ensures { result ≡ is_next i.entry.month.numbers.now s i.entry.n m }
{
    let n = i.n;
    let last = s.instruction;
    let after = s.minute.0 as u32 + 1;
    let end = i.time_at(ENDS);
    if n == last {
        return (m < end) & (m == after);
    }
    if last < INSTRUCTIONS_MOST {
        let start = i.time_at(STARTS);
        let ended = i.month.numbers[ENDS + last as usize];
        return (m < end) & ((n == last + 1) & (m == start) & ((last == 0) | (after == ended)));
    }
    false
}

// Whether kW are in a reading's range.
fn is_reading(kw: Kw) -> bool
    ensures { result ≡ is_reading kw.0 }
{
    (Contract::READING_LEAST..=Contract::READING_MOST).contains(&kw)
}

// The same of a base reading, which a host lends as a plain number.
fn is_base_reading(kw: i32) -> bool
    ensures { result ≡ is_reading kw }
{
    is_reading(Kw(kw as i64))
}

// Whether four base readings are given.
fn are_base(base: &[i32]) -> bool
    ensures { result ≡ are_base base.now }
{
    match base {
        [a, b, c, d] => is_base_reading(*a)
            & is_base_reading(*b)
            & is_base_reading(*c)
            & is_base_reading(*d),
        _ => false,
    }
}

// Whether the reading is in its range, and four base readings are given where the instruction is a new one.
#[inline(always)]
fn are_readings(new: bool, kw: Kw, base: &[i32]) -> bool
    ensures { result ≡ are_readings new kw.0 base.now }
{
    if new {
        return is_reading(kw) & are_base(base);
    }
    is_reading(kw)
}

// The base load: of a new instruction the sum of its four base readings, else the one that the totals keep.
fn base_now(new: bool, s: Totals, base: &[i32]) -> i32
    requires { ((new ≡ true) → (are_base base.now ≡ true)) × Within 2000000 s.base }
    ensures { (result ≡ base_now new s base.now) × Within 2000000 result }
{
    if new {
        return total(base, 0, 4);
    }
    s.base
}

// The totals after a minute of instruction i with this reading, over the base load. In line, as what it calls in each minute: a step is timed against a
// plain program's, and a call that moves totals through memory costs a fifth of it. The base load's bound is a clause as in `energy::quarters`.
#[inline(always)]
fn advance(i: Called, new: bool, s: Totals, r: Reading, base: i32) -> Totals
    requires fit { totals_fit s ≡ true }
    requires within { Within 2000000 base × Within 500000 r.kw.0 }
    requires minute_value { (new ≡ false) → (r.minute.0 ≡ s.minute.0 + 1) }
    ensures { result ≡ advanced i.entry.month.numbers.now new s i.entry.n r.minute.0 r.kw.0 base }
{
    let minute = r.minute;
    let kw = r.kw;
    let m = minute.0 as u32;
    let fresh = new | i.cut_before(m);
    let x = sum_with(fresh, s.expected, i.expects_at(m));
    let d = sum_with(
        fresh,
        s.delivered,
        delivered_in(i.month.numbers[KIND], base, kw),
    );
    let ends = i.cut_before(m + 1);
    let line = line_kwh(ends, x, d);
    let paid = i.line_pence(ends, m, line);
    let capped = s.capped + line;
    let pence = s.pence + paid;
    Totals {
        instruction: i.n,
        minute,
        base,
        expected: x,
        delivered: d,
        capped,
        pence,
    }
}

// Totals that are no larger than the minutes so far let them be, or unfit ones.
fn check_totals(s: Totals) -> Result<(), NotStepped>
    ensures { MatchResult result (λ _. totals_fit s ≡ true) (λ e. (e ≡ NotStepped.Unfit) × (totals_fit s ≡ false)) }
{
    if totals_fit(s) {
        return Ok(());
    }
    Err(NotStepped::Unfit)
}

// The next active minute, or another.
fn check_next(i: Called, s: Totals, m: u32) -> Result<(), NotStepped>
    ensures { MatchResult result (λ _. is_next i.entry.month.numbers.now s i.entry.n m ≡ true)
        (λ e. (e ≡ NotStepped.NotNext) × (is_next i.entry.month.numbers.now s i.entry.n m ≡ false)) }
{
    if is_next(i, s, m) {
        return Ok(());
    }
    Err(NotStepped::NotNext)
}

// The readings that a step needs, or none. In line, as `advance`.
#[inline(always)]
fn check_readings(new: bool, kw: Kw, base: &[i32]) -> Result<(), NotStepped>
    ensures { MatchResult result (λ _. are_readings new kw.0 base.now ≡ true)
        (λ e. (e ≡ NotStepped.NoReading) × (are_readings new kw.0 base.now ≡ false)) }
{
    if are_readings(new, kw, base) {
        return Ok(());
    }
    Err(NotStepped::NoReading)
}

// The totals after the next active minute: minute and reading of instruction n, and its four base readings where this is its first.
#[tactic(auto, unfolding(crate::specs::Step::step_of, crate::specs::Step::answer_to))]
pub fn step(
    month: &[u32],
    s: Totals,
    n: u32,
    r: Reading,
    base: &[i32],
) -> Result<Totals, NotStepped>
    ensures { result ≡ step_of month.now s n r base.now }
{
    let known = Month::of(month)?;
    check_totals(s)?;
    let i = known.called(n)?;
    check_next(i, s, r.minute.0 as u32)?;
    let new = n != s.instruction;
    check_readings(new, r.kw, base)?;
    Ok(advance(i, new, s, r, base_now(new, s, base)))
}
