// The table of windows.
ghost use Rattle.std.specs.Prelude.{◌≡◌, [], ◌∷◌};
ghost use Rattle.rules.specs.Reached.{windows_sound};

use commands::contract::Contract;
use commands::entries::Window;
use energy::units::Minutes;

// Whether a window could be entered under a contract with this span, after one that ends at a minute.
#[tactic(auto, using(commands::proofs::Input::input_ok, std::proofs::lemmas::Bool::Decides::nat_tests), unfolding(rules::specs::Reached::windows_sound))]
fn window_fits(k: Contract, span: usize, end: Minutes, w: Window) -> bool
    ensures { result ≡ windows_sound k span end.0 (w ∷ []) }
{
    w.input_refusal().is_ok()
        & (w.end.0 as usize <= span)
        & !((k.service == Contract::COMMITTED) & (w.verdict == Contract::REJECTED))
        & (end <= w.start)
}

// Whether windows could be entered one after the other.
#[tactic(auto, using(crate::proofs::Walks::windows_turn), unfolding(rules::specs::Reached::windows_sound))]
pub fn windows_sound(k: Contract, span: usize, windows: &[Window]) -> bool
    ensures { result ≡ windows_sound k span 0 windows.now }
{
    let mut end = Minutes(0);
    for w in windows {
        if !window_fits(k, span, end, *w) {
            return false;
        }
        end = w.end;
    }
    true
}
