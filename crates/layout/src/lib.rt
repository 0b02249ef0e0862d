// A model as bytes: what stands where (`specs/Layout.antt`), and that what is stored loads again (`proofs/Stored.antt`).
// What a call of the library returns (`specs/Code.antt`). No code.
#![tactic(auto)]
