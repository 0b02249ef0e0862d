// The parts in which a line of ticks is answered are the whole line: ticks that are cut at stretches (`proofs/Ticks.antt`), texts without
// a line feed (`proofs/Feedless.antt`), and an answer of which only the start is kept (`proofs/Early.antt` and `proofs/Behind.antt`). And
// the reports of the line are those of its ticks one by one (`proofs/Named.antt`, `proofs/Singly.antt`). No code.
#![tactic(auto)]
