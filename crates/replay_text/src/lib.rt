// What is written for a whole text (`specs/Replay.antt`), and that it is this, wherever the pieces end in which the text is read and whenever
// answers are written (`specs/Turns.antt`, `proofs/Written.antt`, `proofs/Outcome.antt`). No code.
#![tactic(auto)]
