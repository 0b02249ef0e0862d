// The page of `show`, row by row. Definitions and their facts; no code.
#![tactic(auto)]
