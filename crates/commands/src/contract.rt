// The contract of a unit: its operands, and the limits of every operand of an entry under it.
ghost use Rattle.std.specs.Prelude.{◌≡◌, true};
ghost use Rattle.commands.specs.Refusals.{outcome};
ghost use Rattle.commands.specs.Input.{in_range, input_refusal, kw_of, offer_of, up_minutes, down_minutes};
ghost use Rattle.energy.specs.Number.{ceiling};
ghost use Rattle.commands.specs.declared.entries.Command.TheVariants.{Contract as contractᶜ};

use crate::refusal::{Refusal, refuse_if};
use energy::limits;
use energy::limits::KW_MOST;
use energy::ramp::ramp_minutes;
use energy::units::{Kw, Minutes};

// The operands of a contract, as they stand in the unit file: any of them may be outside its range, so kind and service are bytes and no enums.
#[derive(Clone, Copy, Debug, PartialEq, Eq)]
pub struct Contract {
    pub days: u8,
    // 0 generator, 1 demand reducer
    pub kind: u8,
    // 0 committed, 1 flexible
    pub service: u8,
    pub contracted: Kw,
    // kW a minute
    pub rampup: u32,
    pub rampdown: u32,
    pub response: Minutes,
    pub recovery: Minutes,
    // pence per MWh
    pub availability: u32,
    pub utilisation: u32,
    pub optional: u32,
}

impl Contract {
    // in place of a contract that is not there: zeros
    pub const NONE: Contract = Contract {
        days: 0,
        kind: 0,
        service: 0,
        contracted: Kw(0),
        rampup: 0,
        rampdown: 0,
        response: Minutes(0),
        recovery: Minutes(0),
        availability: 0,
        utilisation: 0,
        optional: 0,
    };

    pub const DAYS_LEAST: u8 = 1;

    pub const DAYS_MOST: u8 = 31;

    // kinds of unit
    pub const GENERATOR: u8 = 0;

    pub const DEMAND_REDUCER: u8 = 1;

    // services
    pub const COMMITTED: u8 = 0;

    pub const FLEXIBLE: u8 = 1;

    pub const CONTRACTED_LEAST: Kw = Kw(3000);

    pub const CONTRACTED_MOST: Kw = Kw(KW_MOST);

    // kW a minute
    pub const RAMP_LEAST: u32 = 1;

    pub const RAMP_MOST: u32 = 500000;

    // the most minutes that a ramp down takes; a ramp up takes at most the response
    pub const RAMP_DOWN_MOST: u32 = 240;

    pub const RESPONSE_LEAST: Minutes = Minutes(1);

    pub const RESPONSE_MOST: Minutes = Minutes(240);

    pub const RECOVERY_LEAST: Minutes = Minutes(0);

    pub const RECOVERY_MOST: Minutes = Minutes(1200);

    // pence per MWh
    pub const RATE_LEAST: u32 = 0;

    pub const RATE_MOST: u32 = limits::RATE_MOST;

    // window start and end, cease, and default and reading minutes: up to the end of a month of 31 days that gains an hour
    pub const MINUTE_LEAST: Minutes = Minutes(0);

    pub const ISSUE_LEAST: Minutes = Minutes(3);

    pub const MINUTE_MOST: Minutes = Minutes(44700);

    // verdicts on a window
    pub const ACCEPTED: u8 = 0;

    pub const REJECTED: u8 = 1;

    // kinds of default
    pub const DEFAULT_DATA_SUBMISSION: u8 = 1;

    pub const DEFAULT_UTILISATION: u8 = 2;

    pub const DEFAULT_AVAILABILITY: u8 = 3;

    pub const DEFAULT_DELIVERY: u8 = 4;

    // reaches of a default
    pub const REACH_PERIOD: u8 = 1;

    pub const REACH_WINDOW: u8 = 2;

    pub const REACH_WINDOW_END: u8 = 3;

    pub const READING_LEAST: Kw = Kw(-KW_MOST);

    pub const READING_MOST: Kw = Kw(KW_MOST);

    // a reading that was not sent again, which a revision's number is above
    pub const PLAIN: u8 = 0;

    pub const REVISION_LEAST: u8 = 1;

    pub const REVISION_MOST: u8 = 255;

    // marks a minute without a reading
    pub const NO_READING: i32 = -2147483648;

    // P: the windows at fault that lower what a period is paid
    pub const P_MOST: u32 = limits::P_MOST;

    pub const WINDOWS_MOST: usize = 128;

    pub const INSTRUCTIONS_MOST: usize = 64;

    pub const DEFAULTS_MOST: usize = 128;

    pub const PERIOD: Minutes = Minutes(30);

    pub const DAY: Minutes = Minutes(1440);

    // The contract of these operands, or the first refusal that they meet.
    #[tactic(auto, using(crate::proofs::Input::offer_is))]
    pub fn new(
        days: u8,
        kind: u8,
        service: u8,
        contracted: Kw,
        rampup: u32,
        rampdown: u32,
        response: Minutes,
        recovery: Minutes,
        availability: u32,
        utilisation: u32,
        optional: u32,
    ) -> Result<Contract, Refusal>
        ensures { result ≡ offer_of (record {
          days = days;
          kind = kind;
          service = service;
          contracted = contracted;
          rampup = rampup;
          rampdown = rampdown;
          response = response;
          recovery = recovery;
          availability = availability;
          utilisation = utilisation;
          optional = optional;
        }) }
    {
        let contract = Contract {
            days,
            kind,
            service,
            contracted,
            rampup,
            rampdown,
            response,
            recovery,
            availability,
            utilisation,
            optional,
        };
        contract.input_refusal()?;
        Ok(contract)
    }

    // What comes of the operands that a command has: the constructor's answer.
    pub fn offer(self) -> Result<Contract, Refusal>
        ensures { result ≡ offer_of self }
    {
        Contract::new(
            self.days,
            self.kind,
            self.service,
            self.contracted,
            self.rampup,
            self.rampdown,
            self.response,
            self.recovery,
            self.availability,
            self.utilisation,
            self.optional,
        )
    }

    // The first refusal that its own operands meet, if there is one. Ramps are asked only of operands in range.
    pub fn input_refusal(self) -> Result<(), Refusal>
        ensures { result ≡ outcome (input_refusal (contractᶜ self)) }
    {
        refuse_if(!self.in_range(), Refusal::OutOfRange)?;
        let up = self.ramp_up_minutes();
        let down = self.ramp_down_minutes();
        refuse_if(
            ((self.response.0 as u32) < up) | (Contract::RAMP_DOWN_MOST < down),
            Refusal::RampTooLong,
        )
    }

    // U: the minutes of the ramp up. That the operands are in range is asked, and no part of the type: a contract may hold any bytes of a file until 3 is asked.
    #[tactic(auto, unfolding(crate::specs::Input::up_minutes))]
    pub fn ramp_up_minutes(self) -> u32
        requires { in_range (contractᶜ self) ≡ true }
        ensures { result ≡ up_minutes self }
    {
        self.minutes_at(self.rampup)
    }

    // V: the minutes of the ramp down.
    #[tactic(auto, unfolding(crate::specs::Input::down_minutes))]
    pub fn ramp_down_minutes(self) -> u32
        requires { in_range (contractᶜ self) ≡ true }
        ensures { result ≡ down_minutes self }
    {
        self.minutes_at(self.rampdown)
    }

    // The minutes of a ramp to or from the contracted kW.
    fn minutes_at(self, ramp: u32) -> u32
        requires { in_range (contractᶜ self) ≡ true }
        ensures { result ≡ ceiling (kw_of self) ramp }
    {
        ramp_minutes(self.contracted, ramp)
    }

    // Whether each operand is in its range or one of its values.
    fn in_range(self) -> bool
        ensures { result ≡ in_range (contractᶜ self) }
    {
        (Contract::DAYS_LEAST..=Contract::DAYS_MOST).contains(&self.days)
            & (Contract::GENERATOR..=Contract::DEMAND_REDUCER).contains(&self.kind)
            & (Contract::COMMITTED..=Contract::FLEXIBLE).contains(&self.service)
            & (Contract::CONTRACTED_LEAST..=Contract::CONTRACTED_MOST).contains(&self.contracted)
            & (Contract::RAMP_LEAST..=Contract::RAMP_MOST).contains(&self.rampup)
            & (Contract::RAMP_LEAST..=Contract::RAMP_MOST).contains(&self.rampdown)
            & (Contract::RESPONSE_LEAST..=Contract::RESPONSE_MOST).contains(&self.response)
            & (Contract::RECOVERY_LEAST..=Contract::RECOVERY_MOST).contains(&self.recovery)
            & (Contract::RATE_LEAST..=Contract::RATE_MOST).contains(&self.availability)
            & (Contract::RATE_LEAST..=Contract::RATE_MOST).contains(&self.utilisation)
            & (Contract::RATE_LEAST..=Contract::RATE_MOST).contains(&self.optional)
    }
}
