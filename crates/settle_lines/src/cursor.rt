// Lines by a cursor that goes from segment to segment. Each line is calculated once, and its energy and money are added up on the way.
ghost use Rattle.std.specs.Prelude.{◌≡◌, ◌*◌, ◌≤◌, ◌<◌, length};
ghost use Rattle.energy.specs.Energy.{Readable};
ghost use Rattle.energy.specs.Number.{Upto, Within};
ghost use Rattle.rules.specs.Cuts.{cut_of, stage_at, stage_end};
ghost use Rattle.settle_terms.specs.Terms.{period_places};
ghost use Rattle.settle_lines.specs.Cursor.{Plan, Ready, active_of, cursor_at, enter_of, line_by, moved as moved_to, price_by, rate_by, step_of};

use commands::contract::Contract;
use commands::entries::Instruction;
use energy::money::{capped_kwh, delivered_kwh, expected_kwh, payment_pence};
use energy::quarters::{delivered, expected, total};
use energy::units::{Kwh, Minutes, Pence};
use rules::statement::{Line, Rate, Stage};
use settle_terms::Terms;
use settle_terms::minutes::{cell_of, place_of};
use settle_terms::times::base_from;

// What lines are calculated from: a contract's terms, the instructions, the table of live periods and the readings, which have all that a line needs.
#[derive(Clone, Copy)]
pub struct Walk<'a> {
    pub terms: Terms,
    pub instructions: &'a [Instruction],
    pub live: &'a [u8],
    pub meter: &'a [i32],
    ghost plan: { Plan terms instructions.now live.now meter.now },
}

// An instruction under way: its times e, cease and f, its base load as the sum of four readings, and whether a live window pays for its ramps.
#[derive(Clone, Copy)]
pub struct Active {
    pub expiry: Minutes,
    pub cease: Minutes,
    pub end: Minutes,
    pub base: i32,
    pub early: bool,
    pub late: bool,
}

// The segment that comes next: its instruction, from 0, and its first minute; and the sums of the lines before it.
#[derive(Clone, Copy)]
pub struct Cursor {
    pub at: usize,
    pub minute: Minutes,
    pub active: Active,
    pub capped: Kwh,
    pub pence: Pence,
}

// A line, and the cursor after it: a step always has both.
#[derive(Clone, Copy)]
pub struct Stepped {
    pub line: Line,
    pub next: Cursor,
}

// The stage of minute m.
fn stage_of(a: Active, m: Minutes) -> Stage
    ensures { result ≡ stage_at a.expiry.0 a.cease.0 m.0 }
{
    if m.0 < a.expiry.0 {
        Stage::Up
    } else if m.0 < a.cease.0 {
        Stage::Steady
    } else {
        Stage::Down
    }
}

// The end of the stage of minute m. By tests of its own: over `stage_of` settling takes 5 % longer.
fn stage_end(a: Active, m: Minutes) -> Minutes
    ensures { result.0 ≡ stage_end a.expiry.0 a.cease.0 a.end.0 m.0 }
{
    if m.0 < a.expiry.0 {
        a.expiry
    } else if m.0 < a.cease.0 {
        a.cease
    } else {
        a.end
    }
}

// The end of the segment that begins at minute m: of its stage or of its period, whichever is first.
#[tactic(auto, unfolding(rules::specs::Cuts::cut_of))]
fn segment_end(a: Active, m: Minutes) -> Minutes
    requires { m.0 < 30 * period_places }
    ensures { result.0 ≡ cut_of a.expiry.0 a.cease.0 a.end.0 m.0 }
{
    let length = Contract::PERIOD.0;
    let p = length * (m.0 / length) + length;
    let s = stage_end(a, m);
    if s.0 < p { s } else { Minutes(p) }
}

// The rate of minute m: by its own window, or by the one that pays for its ramp.
#[tactic(auto, unfolding(crate::specs::Cursor::rate_by))]
fn rate_of(a: Active, live: &[u8], m: Minutes) -> Rate
    requires { m.0 < 30 * length live.now }
    ensures { result ≡ rate_by a live.now m.0 }
{
    let here = live[place_of(m)] != 0;
    let before = a.early & (m.0 < a.expiry.0);
    let after = a.late & (a.cease.0 <= m.0);
    if here | before | after {
        Rate::Utilisation
    } else {
        Rate::Optional
    }
}

// A rate's pence per MWh.
fn price_of(t: Terms, r: Rate) -> u32
    requires { (t.utilisation ≤ 1000000) × (t.optional ≤ 1000000) }
    ensures { (result ≡ price_by t r) × (result ≤ 1000000) }
{
    match r {
        Rate::Utilisation => t.utilisation,
        Rate::Optional => t.optional,
    }
}

// The line of the segment from minute `from` to `to` - 1 of instruction `at`.
fn line_of(
    t: Terms,
    a: Active,
    live: &[u8],
    meter: &[i32],
    at: usize,
    from: Minutes,
    to: Minutes,
) -> Line
    requires readable { Readable meter.now from.0 to.0 }
    requires within { Within 2000000 a.base }
    requires upto { Upto 500000 t.kw.0 × (t.utilisation ≤ 1000000) × (t.optional ≤ 1000000) }
    requires at_bound { (at < 64) × (from.0 < 30 * length live.now) × (length live.now ≤ period_places) }
    ensures { (result ≡ line_by t a live.now meter.now at from.0 to.0)
        × Within 500000 result.capped.0
        × Within 500000000 result.pence.0 }
{
    let stage = stage_of(a, from);
    let steady = stage == Stage::Steady;
    let length = Minutes(to.0 - from.0);
    let x = expected_kwh(expected(t.kw, steady, length));
    let d = delivered_kwh(delivered(t.kind, a.base, meter, cell_of(from), cell_of(to)));
    let capped = capped_kwh(x, d);
    let rate = rate_of(a, live, from);
    let pence = payment_pence(capped, price_of(t, rate));
    Line {
        instruction: (at + 1) as u32,
        period: (place_of(from) + 1) as u32,
        stage,
        rate,
        expected: x,
        delivered: d,
        capped,
        pence,
    }
}

// The cursor at another place, with a line's energy and money added. Energy added to money does not compile: it was tried.
fn moved(c: Cursor, at: usize, minute: Minutes, l: Line) -> Cursor
    requires within { Within 100000000000000 c.capped.0 × Within 100000000000000 c.pence.0 }
    requires within_2 { Within 500000 l.capped.0 × Within 500000000 l.pence.0 }
    ensures { result ≡ moved_to c at minute.0 l }
{
    Cursor {
        at,
        minute,
        capped: c.capped + l.capped,
        pence: c.pence + l.pence,
        ..c
    }
}

impl<'a> Walk<'a> {
    // Instruction `at` under way.
    #[tactic(auto, unfolding(crate::specs::Cursor::active_of))]
    fn active_at(self, at: usize) -> Active
        requires { at < length self.instructions.now }
        ensures { let w = self.entry in result ≡ active_of w.terms w.instructions.now w.live.now w.meter.now at }
    {
        let t = self.terms;
        let x = self.instructions[at];
        let expiry = t.expiry(x);
        Active {
            expiry,
            cease: x.cease,
            end: t.end(x),
            base: total(self.meter, base_from(x.issue), cell_of(x.issue) + 1),
            early: self.live[place_of(expiry)] != 0,
            late: self.live[place_of(Minutes(x.cease.0 - 1))] != 0,
        }
    }

    // The cursor at the start of its instruction, if there is one.
    #[tactic(auto, unfolding(crate::specs::Cursor::active_of, crate::specs::Cursor::enter_of))]
    fn enter(self, c: Cursor) -> Cursor
        ensures { let w = self.entry in result ≡ enter_of w.terms w.instructions.now w.live.now w.meter.now c }
    {
        if c.at < self.instructions.len() {
            Cursor {
                minute: self.terms.start(self.instructions[c.at]),
                active: self.active_at(c.at),
                ..c
            }
        } else {
            c
        }
    }

    // The line of the segment that comes next, and the cursor after it.
    #[tactic(auto, unfolding(crate::specs::Cursor::step_of))]
    pub fn step(self, c: Cursor) -> Stepped
        requires { Ready self.terms self.instructions.now self.live.now self.meter.now c }
        ensures { let w = self.entry in result ≡ step_of w.terms w.instructions.now w.live.now w.meter.now c }
    {
        let to = segment_end(c.active, c.minute);
        let line = line_of(
            self.terms, c.active, self.live, self.meter, c.at, c.minute, to,
        );
        let next = if to.0 < c.active.end.0 {
            moved(c, c.at, to, line)
        } else {
            self.enter(moved(c, c.at + 1, to, line))
        };
        Stepped { line, next }
    }

    // The cursor at the first segment, if there is one.
    pub fn first(self) -> Cursor
        ensures { let w = self.entry in result ≡ cursor_at w.terms w.instructions.now w.live.now w.meter.now 0 }
    {
        let none = Active {
            expiry: Minutes(0),
            cease: Minutes(0),
            end: Minutes(0),
            base: 0,
            early: false,
            late: false,
        };
        let start = Cursor {
            at: 0,
            minute: Minutes(0),
            active: none,
            capped: Kwh(0),
            pence: Pence(0),
        };
        self.enter(start)
    }
}
