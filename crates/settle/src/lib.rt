// Settling a book, as far as it does not depend on the memory for its lines: every refusal, the tables that lines are calculated from, the windows' entries
// and the sums. `settle_records` and `settle_numbers` put the lines into memory.
#![tactic(auto)]

pub mod prepare;
