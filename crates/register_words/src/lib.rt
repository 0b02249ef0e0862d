// That every register of a model reads as a word of 16 bits: what its fields have to be for that (`specs/Words.antt`), that every call
// keeps them so (`proofs/Kept.antt`), and the registers' words (`proofs/Registers.antt`). No code.
#![tactic(auto)]
