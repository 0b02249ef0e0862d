// The words of the answers. The definitions and their laws stand in specs/ and proofs/; `phrase` has the code.
#![tactic(auto)]
