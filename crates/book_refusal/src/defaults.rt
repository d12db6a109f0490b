// A default after those of the table.
ghost use Rattle.std.specs.Prelude.{◌≡◌};
ghost use Rattle.book_sound.specs.InOrder.{WindowsInOrder};
ghost use Rattle.commands.specs.Refusals.{outcome};
ghost use Rattle.book_refusal.specs.Refusals.{default_refusal};

use book_sound::defaults::in_window;
use commands::contract::Contract;
use commands::entries::{Default, Window};
use commands::refusal::{Refusal, refuse_if};

// 16, 21 and 23, beside these windows, whose order is a clause as in `book_sound::defaults`, and after the defaults of the table.
#[tactic(auto, unfolding(crate::specs::Refusals::default_refusal, commands::specs::Refusals::outcome, commands::specs::Refusals::refusal_of))]
pub fn default_refusal(
    span: usize,
    windows: &[Window],
    defaults: &[Default],
    d: Default,
) -> Result<(), Refusal>
    requires { WindowsInOrder 0 windows.now }
    ensures { result ≡ outcome (default_refusal span windows.now defaults.now d) }
{
    refuse_if(span <= d.minute.0 as usize, Refusal::BeyondSpan)?;
    refuse_if(!in_window(windows, d.minute), Refusal::OutsideWindows)?;
    refuse_if(
        Contract::DEFAULTS_MOST <= defaults.len(),
        Refusal::FullTable,
    )
}
