// The contract: its month, its date, and whether there is one.
ghost use Rattle.std.specs.Prelude.{◌≡◌, cond, [], ◌∷◌, ◌+◌};
ghost use Rattle.energy.specs.Lists.{all, pass};
ghost use Rattle.calendar.specs.Calendar.{gained_in, is_no_date};
ghost use Rattle.rules.specs.Ledger.{span_of};
ghost use Rattle.rules.specs.Reached.{date_sound};
ghost use Rattle.book_sound.specs.Unused.{no_contract_tests};

use calendar::{Date, days_of, gained};
use commands::contract::Contract;

// The minutes of a contract's month, as if undated.
pub fn span_of(k: Contract) -> usize
    ensures { result ≡ span_of k }
{
    Contract::DAY.0 as usize * k.days as usize
}

// The same with the hour that an October gains.
#[tactic(auto, using(calendar::proofs::Months::gained_most))]
pub fn full_span(k: Contract, month: u8) -> usize
    ensures { result ≡ span_of k + gained_in month }
{
    span_of(k) + gained(month)
}

// Whether a contract has no date, or one that could be entered under it: the 1st of a month with its days.
#[tactic(auto, unfolding(energy::specs::Lists::all))]
pub fn date_sound(k: Contract, d: Date) -> bool
    ensures { result ≡ all (date_sound k) (cond (is_no_date d) [] (d ∷ [])) }
{
    d.is_none() | (d.exists() & (d.day == Date::DAY_LEAST) & (days_of(d.year, d.month) == k.days))
}

// Whether a contract is all zeros.
#[tactic(auto, using(crate::proofs::Tables::zero_is), unfolding(crate::specs::Unused::no_contract_tests, energy::specs::Lists::pass))]
pub fn is_no_contract(k: Contract) -> bool
    ensures { result ≡ pass (no_contract_tests k) }
{
    k == Contract::NONE
}
