// The page of `show`, row by row. The definitions and their laws stand in specs/ and proofs/; `show` has the code.
#![tactic(auto)]
