// What stands around a line's answer: bad lines, the line's head in a check, the name of an item; and behind the answer what the line
// expects of it, and what needs a look. The definitions and their laws stand in specs/ and proofs/; `checker` has the code.
#![tactic(auto)]
