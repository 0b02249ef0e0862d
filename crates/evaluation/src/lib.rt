// The evaluation of delivered words: which are late, open or short, the hits and averages of a direction, differences, means. `hit` has
// the definitions.
#![tactic(auto)]

pub mod difference;
pub mod limit;
pub mod words;
