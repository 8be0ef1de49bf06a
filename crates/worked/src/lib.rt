// Worked examples: at a point of most of the papers' check tables the definitions give what is printed, as
// theorems over the definitions alone (proofs/). There is no code.
#![tactic(auto)]
