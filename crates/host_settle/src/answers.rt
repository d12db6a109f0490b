// What a call answers, as one number.
ghost use Rattle.std.specs.Prelude.{◌≡◌};
ghost use Rattle.host_settle.specs.Answers.{number_of, packed};

use commands::refusal::Refusal;
use rules::answer::Answer;

// The most that an offset stands for in an answer: what is left of 64 bits beside the number's 8.
const OFFSET_MOST: usize = 72057594037927935;

// The number of an answer, which C can take. `From` could stand only in a crate that has one of the two types.
pub fn number_of(a: Answer) -> u8
    ensures { result ≡ number_of a }
{
    a.err().map_or(0, Refusal::number)
}

// A number with an offset.
#[tactic(auto, unfolding(crate::specs::Answers::packed))]
pub fn pack(number: u8, offset: usize) -> u64
    ensures { result ≡ packed number offset }
{
    u64::from(number) + 256 * offset.min(OFFSET_MOST) as u64
}
