// The three demands on the model, and their proofs: `specs/Demands.antt` is the whole statement. No code.
#![tactic(auto)]
