// The text that a whole line adds to what is written, with all that stands around its answer (`specs/Text.antt`); that a line adds this
// text (`proofs/Text.antt`), and that all that it leaves is the same in any other buffer that has room (`proofs/Kept.antt`). No code.
#![tactic(auto)]
