// The rules of settlement as types and definitions: what a call answers, what a reader finds, what a statement holds, and in specs/ what is right.
#![tactic(auto)]

pub mod answer;
pub mod file;
pub mod statement;
