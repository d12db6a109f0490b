// Running totals: the theorem that the steps give what the rules give, without code. `specs/Running` has the totals by the rules alone,
// `specs/Watched` the claim.
#![tactic(auto)]
