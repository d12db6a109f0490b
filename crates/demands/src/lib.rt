// What the package as a whole promises, as theorems over the equations of its public calls, and no code: the lists of demand 3, the round trip
// of a written book, whole files, files in pieces, and Appendix 2's file as the witness that demand 3 says something.
#![tactic(auto)]
