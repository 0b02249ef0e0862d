// A replay, from the text of items to the text of their answers. Definitions and their facts; no code.
#![tactic(auto)]
