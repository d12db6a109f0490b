// The unit file: a decoder of one command, and a reader that carries a file and its position.
#![tactic(auto)]

pub mod decode;
pub mod reader;
