// A reading beside those in lent memory.
ghost use Rattle.std.specs.Prelude.{◌≡◌};
ghost use Rattle.book_memory.specs.Lent.{held};
ghost use Rattle.commands.specs.Refusals.{number_of, outcome};
ghost use Rattle.book_refusal.specs.Refusals.{reading_refusal, held_refusal};

use book_memory::lent::Lent;
use commands::contract::Contract;
use commands::entries::Reading;
use commands::refusal::{Refusal, refuse_if};

// 16, then 22 for a plain reading and 27 for one sent again.
#[tactic(auto, using(std::proofs::lemmas::Bool::Decides::nat_tests, commands::proofs::Outcomes::numbered_as), unfolding(crate::specs::Refusals::reading_refusal, commands::specs::Refusals::outcome, commands::specs::Refusals::refusal_of))]
pub fn reading_refusal(span: usize, number: u8, r: Reading, memory: Lent<'_>) -> Result<(), Refusal>
    ensures { result ≡ outcome (reading_refusal span (held memory.entry) number r) }
{
    let at = r.minute.0 as usize;
    refuse_if(span <= at, Refusal::BeyondSpan)?;
    refuse_if(memory.not_above(number, r.minute), held_refusal(number))
}

// The refusal for a minute that holds a reading of this revision or one above it.
#[tactic(auto, using(std::proofs::lemmas::Bool::Decides::nat_tests), unfolding(crate::specs::Refusals::held_refusal))]
fn held_refusal(number: u8) -> Refusal
    ensures { number_of result ≡ held_refusal number }
{
    if number == Contract::PLAIN {
        Refusal::SecondReading
    } else {
        Refusal::RevisionHeld
    }
}
