// What a reader finds in a unit file.
use commands::entries::Command;
use commands::refusal::Refusal;

// At a position: a command and the position after it, nothing at the end, or the refusal of an unknown command or of one cut off.
pub type Read = Result<Option<(Command, usize)>, Refusal>;
