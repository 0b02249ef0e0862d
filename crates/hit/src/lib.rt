// Delivered hit words: which are late, open or short, the hits and averages of a direction, differences, means. The definitions and
// their laws stand in specs/ and proofs/; `evaluation` has the code.
#![tactic(auto)]
