// The lister's rows as bytes: a program asks for a row and writes its bytes out.
#![tactic(auto)]

pub mod fields;
pub mod row;
pub mod rows;
