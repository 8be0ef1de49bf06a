// The points that document 01 marks, in one table (specs/Marked.antt), settled by one proved
// statement over the definitions (proofs/Settled.antt). There is no code.
#![tactic(auto)]
