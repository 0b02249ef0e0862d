// 01's eleven marked examples, and lists of calls that meet the hypotheses of the third demand: `specs/Bench.antt`, and the proofs.
// No code.
#![tactic(auto)]
