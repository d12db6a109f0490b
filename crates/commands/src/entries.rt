// The entries of a unit file, and the command that is one of them or a close. A field holds whatever its operand bytes can say;
// an entry's `input_refusal` tells whether that is in its range.
ghost use Rattle.std.specs.Prelude.{◌≡◌, ◌+◌, ◌<◌, ◌^◌};
ghost use Rattle.commands.specs.Refusals.{outcome};
ghost use Rattle.commands.specs.Input.{from_to, input_refusal, meterable};
ghost use Rattle.commands.specs.declared.entries.Command.TheVariants.{Date as dateᶜ, Window as windowᶜ, Instruction as instructionᶜ};
ghost use Rattle.commands.specs.declared.entries.Command.TheVariants.{Default as defaultᶜ, Reading as readingᶜ, Revision as revisionᶜ};

use crate::contract::Contract;
use crate::refusal::{Refusal, refuse_if};
use calendar::Date;
use energy::units::{Kw, Minutes};

// A window of availability: from its start up to, and without, its end.
#[derive(Clone, Copy, Debug, PartialEq, Eq)]
pub struct Window {
    pub start: Minutes,
    pub end: Minutes,
    // 0 accepted, 1 rejected; a byte and no enum, since a file's operand may be any, and is written as it was read
    pub verdict: u8,
}

// An instruction to deliver.
#[derive(Clone, Copy, Debug, PartialEq, Eq)]
pub struct Instruction {
    pub issue: Minutes,
    pub cease: Minutes,
}

// A default. Kinds: 1 data submission, 2 utilisation, 3 availability, 4 delivery.
// Reaches: 1 the period, 2 the whole window, 3 from that period to the window's end. Bytes and no enums, as a window's verdict.
#[derive(Clone, Copy, Debug, PartialEq, Eq)]
pub struct Default {
    pub minute: Minutes,
    pub kind: u8,
    pub reach: u8,
}

// The metered kW of a minute.
#[derive(Clone, Copy, Debug, PartialEq, Eq)]
pub struct Reading {
    pub minute: Minutes,
    pub kw: Kw,
}

// A reading that the meter operator sends again: of those for a minute the greatest number supersedes.
#[derive(Clone, Copy, Debug, PartialEq, Eq)]
pub struct Revision {
    pub number: u8,
    pub reading: Reading,
}

#[derive(Clone, Copy, Debug, PartialEq, Eq)]
pub enum Command {
    Contract(Contract),
    Date(Date),
    Window(Window),
    Instruction(Instruction),
    Default(Default),
    Reading(Reading),
    Revision(Revision),
    Close,
}

// The first refusal that a date's own operands meet, if there is one; so for each entry below.
#[tactic(auto, using(crate::proofs::Input::input_cond), unfolding(crate::specs::Refusals::outcome, crate::specs::Refusals::refusal_of))]
pub fn date_input_refusal(d: Date) -> Result<(), Refusal>
    ensures { result ≡ outcome (input_refusal (dateᶜ d)) }
{
    refuse_if(!d.exists(), Refusal::NoSuchDate)
}

impl Window {
    // in place of a window that is not there: zeros; so for the two below
    pub const NONE: Window = Window {
        start: Minutes(0),
        end: Minutes(0),
        verdict: 0,
    };

    pub fn input_refusal(self) -> Result<(), Refusal>
        ensures { result ≡ outcome (input_refusal (windowᶜ self)) }
    {
        let fits = (Contract::MINUTE_LEAST..=Contract::MINUTE_MOST).contains(&self.start)
            & (Contract::MINUTE_LEAST..=Contract::MINUTE_MOST).contains(&self.end)
            & (Contract::ACCEPTED..=Contract::REJECTED).contains(&self.verdict);
        let bad = (self.end.0 <= self.start.0)
            | !(self.start.0 % Contract::PERIOD.0 == 0)
            | !(self.end.0 % Contract::PERIOD.0 == 0);
        refuse_if(!fits, Refusal::OutOfRange)?;
        refuse_if(bad, Refusal::BadWindow)
    }
}

impl Instruction {
    pub const NONE: Instruction = Instruction {
        issue: Minutes(0),
        cease: Minutes(0),
    };

    #[tactic(auto, using(std::proofs::lemmas::Grind::common_steps, crate::proofs::Input::input_cond), unfolding(crate::specs::Refusals::outcome, crate::specs::Refusals::refusal_of))]
    pub fn input_refusal(self) -> Result<(), Refusal>
        ensures { result ≡ outcome (input_refusal (instructionᶜ self)) }
    {
        let fits = (Contract::ISSUE_LEAST..=Contract::MINUTE_MOST).contains(&self.issue)
            & (Contract::MINUTE_LEAST..=Contract::MINUTE_MOST).contains(&self.cease);
        refuse_if(!fits, Refusal::OutOfRange)
    }
}

impl Default {
    pub const NONE: Default = Default {
        minute: Minutes(0),
        kind: 0,
        reach: 0,
    };

    #[tactic(auto, using(std::proofs::lemmas::Grind::common_steps, crate::proofs::Input::input_cond), unfolding(crate::specs::Refusals::outcome, crate::specs::Refusals::refusal_of))]
    pub fn input_refusal(self) -> Result<(), Refusal>
        ensures { result ≡ outcome (input_refusal (defaultᶜ self)) }
    {
        let fits = (Contract::MINUTE_LEAST..=Contract::MINUTE_MOST).contains(&self.minute)
            & known_kind(self.kind)
            & known_reach(self.reach);
        refuse_if(!fits, Refusal::OutOfRange)
    }
}

impl Reading {
    #[tactic(auto, using(crate::proofs::Input::input_cond), unfolding(crate::specs::Refusals::outcome, crate::specs::Refusals::refusal_of))]
    pub fn input_refusal(self) -> Result<(), Refusal>
        ensures { result ≡ outcome (input_refusal (readingᶜ self)) }
    {
        refuse_if(!self.in_range(), Refusal::OutOfRange)
    }

    // Whether minute and kW are in their ranges.
    fn in_range(self) -> bool
        ensures { result ≡ meterable self }
    {
        (Contract::MINUTE_LEAST..=Contract::MINUTE_MOST).contains(&self.minute)
            & (Contract::READING_LEAST..=Contract::READING_MOST).contains(&self.kw)
    }
}

impl Revision {
    pub fn input_refusal(self) -> Result<(), Refusal>
        ensures { result ≡ outcome (input_refusal (revisionᶜ self)) }
    {
        let fits = (Contract::REVISION_LEAST..=Contract::REVISION_MOST).contains(&self.number)
            & self.reading.in_range();
        refuse_if(!fits, Refusal::OutOfRange)
    }
}

// f: the end of an instruction that ceases at a minute, where the ramp down takes so many minutes.
pub fn end_of(cease: Minutes, down: u32) -> usize
    ensures { (result ≡ cease.0 + down) × (result < 2 ^ 33) }
{
    cease.0 as usize + down as usize
}

// The kinds of default, and every other byte.
fn known_kind(kind: u8) -> bool
    ensures { result ≡ from_to 1 4 kind }
{
    match kind {
        Contract::DEFAULT_DATA_SUBMISSION
        | Contract::DEFAULT_UTILISATION
        | Contract::DEFAULT_AVAILABILITY
        | Contract::DEFAULT_DELIVERY => true,
        0 | 5..=255 => false,
    }
}

// The reaches of a default, and every other byte.
fn known_reach(reach: u8) -> bool
    ensures { result ≡ from_to 1 3 reach }
{
    match reach {
        Contract::REACH_PERIOD | Contract::REACH_WINDOW | Contract::REACH_WINDOW_END => true,
        0 | 4..=255 => false,
    }
}
