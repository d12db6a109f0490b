// All entries of a book with a contract.
ghost use Rattle.std.specs.Prelude.{◌≡◌};
ghost use Rattle.energy.specs.Lists.{pass};
ghost use Rattle.rules.specs.Reached.{agreed_tests};

use crate::defaults::defaults_sound;
use crate::instructions::instructions_sound;
use crate::windows::windows_sound;
use commands::contract::Contract;
use commands::entries::{Default, Instruction, Window};

// Whether each of these windows, instructions and defaults could be taken after those before it, under a contract with this span.
#[tactic(auto, using(crate::proofs::Walks::agreed_apart))]
pub fn agreed_sound(
    k: Contract,
    span: usize,
    windows: &[Window],
    instructions: &[Instruction],
    defaults: &[Default],
) -> bool
    ensures { result ≡ pass (agreed_tests k span windows.now instructions.now defaults.now) }
{
    k.input_refusal().is_ok()
        && windows_sound(k, span, windows)
        && instructions_sound(k, span, instructions)
        && defaults_sound(span, windows, defaults)
}
