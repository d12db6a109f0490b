// Every refusal of the rules by example, and beside each the nearest that is taken: a theorem, and no code. It is a crate of its own since it takes long
// to compute and nothing else rests on it.
#![tactic(auto)]
