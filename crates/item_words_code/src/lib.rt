// The code of the answers' words: texts that are put into a lent buffer from a place on, and the place after them.
// Where a text has no room nothing is said of what stands there.
#![tactic(auto)]

pub mod answer;
pub mod expectation;
pub mod fault;
pub mod kept;
pub mod refusals;
pub mod register_lines;
pub mod reports;
