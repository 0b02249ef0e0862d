// What a replay keeps from line to line beside the model: its counts, and the answers that are not
// written yet.
#![tactic(auto)]

pub mod counts;
pub mod output;
pub mod told;
