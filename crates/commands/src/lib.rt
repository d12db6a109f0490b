// What a command can say: the contract with the limits of every operand, the entries, and what their own operands are refused for.
#![tactic(auto)]

pub mod contract;
pub mod entries;
pub mod refusal;
