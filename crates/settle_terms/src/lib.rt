// What settling reads off a book once: the contract's figures, and by them the times of an instruction.
#![tactic(auto)]

ghost use Rattle.std.specs.Prelude.{◌≡◌, ◌≤◌};
ghost use Rattle.commands.specs.Input.{down_minutes, up_minutes};
ghost use Rattle.energy.specs.Number.{Upto};
ghost use Rattle.settle_terms.specs.Terms.{terms_of};

use commands::contract::Contract;
use energy::ramp::ramp_minutes;
use energy::units::{Kw, Minutes};

pub mod minutes;
pub mod times;

// What a line needs of the contract. Its kW and its minutes put into each other's places do not compile: it was tried.
#[derive(Clone, Copy)]
pub struct Terms {
    pub kw: Kw,
    // the contract's byte, of which `energy::quarters::delivered` takes any
    pub kind: u8,
    pub response: Minutes,
    // ramp up minutes U and ramp down minutes V
    pub upminutes: Minutes,
    pub downminutes: Minutes,
    // pence per MWh
    pub utilisation: u32,
    pub optional: u32,
}

// The terms of a contract. Its ramps take at most 240 minutes, so that they are minutes of a month.
#[tactic(auto, unfolding(commands::specs::Input::up_minutes, commands::specs::Input::down_minutes, crate::specs::Terms::terms_of))]
pub fn terms_of(k: Contract) -> Terms
    requires { Upto 500000 k.contracted.0 × (up_minutes k ≤ 240) × (down_minutes k ≤ 240) }
    ensures { result ≡ terms_of k }
{
    let up = ramp_minutes(k.contracted, k.rampup) as u16;
    let down = ramp_minutes(k.contracted, k.rampdown) as u16;
    Terms {
        kw: k.contracted,
        kind: k.kind,
        response: k.response,
        upminutes: Minutes(up),
        downminutes: Minutes(down),
        utilisation: k.utilisation,
        optional: k.optional,
    }
}
