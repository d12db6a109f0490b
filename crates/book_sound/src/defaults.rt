// The table of defaults.
ghost use Rattle.std.specs.Prelude.{◌≡◌, ◌&&◌, ltb};
ghost use Rattle.energy.specs.Lists.{all, any};
ghost use Rattle.commands.specs.Input.{in_range};
ghost use Rattle.rules.specs.Ledger.{within};
ghost use Rattle.rules.specs.Reached.{default_sound};
ghost use Rattle.commands.specs.declared.contract.Contract.{Contract};
ghost use Rattle.book_sound.specs.InOrder.{WindowsInOrder};

use commands::entries::{Command, Default, Window};
use energy::units::Minutes;

// Whether a minute is in one of these windows. As they are in order, the last one that starts by then is the only one that can hold it.
// Order is a clause here and below: a struct of ordered windows would be made of the book's slice anew before each call.
pub fn in_window(windows: &[Window], m: Minutes) -> bool
    requires { WindowsInOrder 0 windows.now }
    ensures { result ≡ any (λ w. within w m.0) windows.now }
{
    let started = windows.partition_point(|w| w.start <= m);
    windows[..started].last().is_some_and(|w| m < w.end)
}

// Whether a default could be entered beside these windows in a month with this span.
#[tactic(auto, using(commands::proofs::Input::input_ok))]
fn default_fits(span: usize, windows: &[Window], d: Default) -> bool
    requires { WindowsInOrder 0 windows.now }
    ensures { result ≡ (in_range (Command.Default d) && ltb d.minute.0 span && any (λ w. within w d.minute.0) windows.now) }
{
    d.input_refusal().is_ok() & ((d.minute.0 as usize) < span) & in_window(windows, d.minute)
}

// Whether defaults could be entered beside these windows.
pub fn defaults_sound(span: usize, windows: &[Window], defaults: &[Default]) -> bool
    requires { WindowsInOrder 0 windows.now }
    ensures { (k : Contract) → result ≡ all (default_sound k span windows.now) defaults.now }
{
    defaults.iter().all(|d| default_fits(span, windows, *d))
}
