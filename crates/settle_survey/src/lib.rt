// Before a line is written: whether every needed minute has a reading, and how many segments there are.
#![tactic(auto)]

ghost use Rattle.std.specs.Prelude.{◌≡◌, ◌+◌, ◌*◌, ◌≤◌, ◌<◌, length};
ghost use Rattle.energy.specs.Lists.{all, between};
ghost use Rattle.rules.specs.Cuts.{touched as touched_of};
ghost use Rattle.settle_survey.specs.Survey.{Surveyable, SurveyableAt, Termed, has, survey_of, survey_to};

use book_memory::holds_reading;
use commands::entries::Instruction;
use energy::units::Minutes;
use settle_terms::Terms;
use settle_terms::minutes::{cell_of, place_of};
use settle_terms::times::base_from;

// Of the instructions so far: whether all their readings are there, and the number of their segments. Both hold of any readings: no half is an answer.
#[derive(Clone, Copy)]
pub struct Survey {
    pub complete: bool,
    pub count: usize,
}

// Whether each cell from `from` to `to` - 1 holds a reading. It looks at all of them, so that the compiler tests several cells at a time.
fn all_read(meter: &[i32], from: usize, to: usize) -> bool
    requires { (from ≤ to) × (to ≤ length meter.now) }
    ensures { result ≡ all (has meter.now) (between from to) }
{
    let mut ok = true;
    for x in &meter[from..to] {
        ok &= holds_reading(*x);
    }
    ok
}

// The periods that the minutes from a to b - 1 touch.
#[tactic(auto, unfolding(rules::specs::Cuts::touched))]
fn touched(a: Minutes, b: Minutes) -> usize
    ensures { (result ≡ touched_of a.0 b.0) × (result ≤ 1000000) }
{
    if a < b {
        place_of(Minutes(b.0 - 1)) - place_of(a) + 1
    } else {
        0
    }
}

// The survey with one instruction more.
#[tactic(auto, unfolding(crate::specs::Survey::survey_of))]
fn surveyed(t: Terms, meter: &[i32], x: Instruction, s: Survey) -> Survey
    requires terms { Termed t }
    requires instruction { SurveyableAt t meter.now x }
    requires count { s.count ≤ 3000000 * 64 }
    ensures { (result ≡ survey_of t meter.now x s) × (result.count ≤ s.count + 3000000) }
{
    let expiry = t.expiry(x);
    let start = t.start(x);
    let end = t.end(x);
    let base = all_read(meter, base_from(x.issue), cell_of(x.issue) + 1);
    let active = all_read(meter, cell_of(start), cell_of(end));
    let n = touched(start, expiry) + touched(expiry, x.cease) + touched(x.cease, end);
    Survey {
        complete: s.complete & (base & active),
        count: s.count + n,
    }
}

// The survey of all instructions.
pub fn survey_all(t: Terms, instructions: &[Instruction], meter: &[i32]) -> Survey
    requires { Surveyable t instructions.now meter.now }
    ensures { result ≡ survey_to t instructions.now meter.now (length instructions.now) }
{
    let mut s = Survey {
        complete: true,
        count: 0,
    };
    for x in instructions {
        s = surveyed(t, meter, *x, s);
    }
    s
}
