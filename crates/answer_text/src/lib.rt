// The texts of each line's answer by themselves (`specs/Texts.antt`, `specs/Line.antt`), and that a line puts these texts into the buffer
// behind the answers before it, whatever the buffer is (`proofs/Line.antt`). No code.
#![tactic(auto)]
