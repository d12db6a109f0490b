// A command and its operands as plain numbers, each from the other.
#![tactic(auto)]

pub mod command;
pub mod operand;
