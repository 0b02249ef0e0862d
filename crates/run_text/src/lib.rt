// What a run over several files writes, with headings and summary (`specs/Run.antt`), and that the turns of the program come to it, however
// its files are read in pieces (`proofs/Files.antt`, `proofs/Run.antt`). No code.
#![tactic(auto)]
