// How long the answer of one line is at most (`specs/Longest.antt`), proved of every line (`proofs/Line.antt`). No code.
#![tactic(auto)]
