// What a call answers.
use commands::refusal::Refusal;

// Taken, or refused.
pub type Answer = Result<(), Refusal>;
