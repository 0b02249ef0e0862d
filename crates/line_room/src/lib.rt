// The form that what a replay keeps has before every line and behind it (`specs/Form.antt`), so that every line finds room in the buffer
// and the law on the text of a whole line holds of it (`proofs/Whole.antt`), and that every line keeps this form (`proofs/Kept.antt`)
// and the words that the model's registers need (`proofs/RegisterWords.antt`). No code.
#![tactic(auto)]
