// An instruction after those of the table.
ghost use Rattle.std.specs.Prelude.{◌≡◌, true};
ghost use Rattle.commands.specs.Input.{down_minutes, in_range};
ghost use Rattle.rules.specs.Refusal.{recovered};
ghost use Rattle.commands.specs.Refusals.{outcome};
ghost use Rattle.book_refusal.specs.Refusals.{instruction_refusal};

use commands::contract::Contract;
use commands::entries::{Command, Instruction, end_of};
use commands::refusal::{Refusal, refuse_if};

// 16, 19, 20 and 23, after the instructions of the table.
#[tactic(auto, unfolding(crate::specs::Refusals::instruction_refusal, commands::specs::Refusals::outcome, commands::specs::Refusals::refusal_of))]
pub fn instruction_refusal(
    k: Contract,
    span: usize,
    instructions: &[Instruction],
    i: Instruction,
) -> Result<(), Refusal>
    requires { in_range (Command.Contract k) ≡ true }
    ensures { result ≡ outcome (instruction_refusal k span instructions.now i) }
{
    let down = k.ramp_down_minutes();
    let ready = ready_after(k, down, instructions);
    let expiry = i.issue.0 as usize + k.response.0 as usize;
    refuse_if(span < end_of(i.cease, down), Refusal::BeyondSpan)?;
    refuse_if((i.cease.0 as usize) < expiry, Refusal::CeasedEarly)?;
    refuse_if((i.issue.0 as usize) < ready, Refusal::IssuedEarly)?;
    refuse_if(
        Contract::INSTRUCTIONS_MOST <= instructions.len(),
        Refusal::FullTable,
    )
}

// The end of the last instruction plus recovery, 0 where there is none.
#[tactic(auto, using(crate::proofs::Last::recovered_read))]
fn ready_after(k: Contract, down: u32, instructions: &[Instruction]) -> usize
    requires { down ≡ down_minutes k }
    ensures { result ≡ recovered k instructions.now }
{
    match instructions.last() {
        Some(last) => end_of(last.cease, down) + k.recovery.0 as usize,
        None => 0,
    }
}
