// The conditions before those of a command's own kind.
ghost use Rattle.std.specs.Prelude.{◌≡◌};
ghost use Rattle.commands.specs.Refusals.{outcome};
ghost use Rattle.book_refusal.specs.Refusals.{any_refusal};

use commands::refusal::{Refusal, refuse_if};

// 11 to 15.
// sound: some list of commands leaves the book; contract: the command is one; short: lent memory has too little room.
#[tactic(auto, unfolding(crate::specs::Refusals::any_refusal, commands::specs::Refusals::outcome, commands::specs::Refusals::refusal_of))]
pub fn any_refusal(
    sound: bool,
    closed: bool,
    agreed: bool,
    contract: bool,
    short: bool,
) -> Result<(), Refusal>
    ensures { result ≡ outcome (any_refusal 0 sound closed agreed contract short) }
{
    refuse_if(!sound, Refusal::NotReached)?;
    refuse_if(closed, Refusal::Closed)?;
    refuse_if(!agreed & !contract, Refusal::NoContract)?;
    refuse_if(agreed & contract, Refusal::SecondContract)?;
    refuse_if(short, Refusal::ShortMemory)
}
