// A window after those of the table.
ghost use Rattle.std.specs.Prelude.{◌≡◌};
ghost use Rattle.commands.specs.Refusals.{outcome};
ghost use Rattle.book_refusal.specs.Refusals.{windows_end, window_refusal};

use commands::contract::Contract;
use commands::entries::Window;
use commands::refusal::{Refusal, refuse_if};
use energy::units::Minutes;

// 16, 17, 18 and 23, after the windows of the table.
#[tactic(auto, using(energy::proofs::Ranges::minutes_before), unfolding(crate::specs::Refusals::window_refusal, commands::specs::Refusals::outcome, commands::specs::Refusals::refusal_of))]
pub fn window_refusal(
    service: u8,
    span: usize,
    windows: &[Window],
    w: Window,
) -> Result<(), Refusal>
    ensures { result ≡ outcome (window_refusal service span windows.now w) }
{
    let rejected = (service == Contract::COMMITTED) & (w.verdict == Contract::REJECTED);
    refuse_if(span < w.end.0 as usize, Refusal::BeyondSpan)?;
    refuse_if(rejected, Refusal::RejectedWindow)?;
    refuse_if(w.start < windows_end(windows), Refusal::OverlappingWindow)?;
    refuse_if(Contract::WINDOWS_MOST <= windows.len(), Refusal::FullTable)
}

// The end of the last window, 0 where there is none.
#[tactic(auto, using(crate::proofs::Last::last_read))]
fn windows_end(windows: &[Window]) -> Minutes
    ensures { result.0 ≡ windows_end windows.now }
{
    windows.last().map_or(Minutes(0), |last| last.end)
}
