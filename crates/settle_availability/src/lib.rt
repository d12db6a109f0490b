// Availability: which periods of the live windows are paid, and what they are paid.
#![tactic(auto)]

pub mod paid;
