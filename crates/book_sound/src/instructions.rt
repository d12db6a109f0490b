// The table of instructions.
ghost use Rattle.std.specs.Prelude.{◌≡◌, [], ◌∷◌, true};
ghost use Rattle.commands.specs.Input.{down_minutes, in_range};
ghost use Rattle.rules.specs.Reached.{instructions_sound};

use commands::contract::Contract;
use commands::entries::{Command, Instruction, end_of};

// Whether an instruction could be entered under a contract with this span, where none may be issued before a minute.
#[tactic(auto, using(commands::proofs::Input::input_ok), unfolding(rules::specs::Reached::instructions_sound))]
fn instruction_fits(k: Contract, span: usize, down: u32, ready: usize, i: Instruction) -> bool
    requires { down ≡ down_minutes k }
    ensures { result ≡ instructions_sound k span ready (i ∷ []) }
{
    i.input_refusal().is_ok()
        & (end_of(i.cease, down) <= span)
        & (i.issue.0 as usize + k.response.0 as usize <= i.cease.0 as usize)
        & (ready <= i.issue.0 as usize)
}

// Whether instructions could be entered one after the other.
#[tactic(auto, using(crate::proofs::Walks::instructions_turn), unfolding(rules::specs::Reached::instructions_sound))]
pub fn instructions_sound(k: Contract, span: usize, instructions: &[Instruction]) -> bool
    requires { in_range (Command.Contract k) ≡ true }
    ensures { result ≡ instructions_sound k span 0 instructions.now }
{
    let down = k.ramp_down_minutes();
    let mut ready = 0;
    for i in instructions {
        if !instruction_fits(k, span, down, ready, *i) {
            return false;
        }
        ready = end_of(i.cease, down) + k.recovery.0 as usize;
    }
    true
}
