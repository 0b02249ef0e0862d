// The code of `line`: a line of a replay's text, read into a call.
//
// No public function has a `requires`. The numbers of a line go into a buffer that the caller
// lends: those that it has no place for are counted and dropped.
#![tactic(auto)]

mod calls;
mod decimals;
mod keywords;
mod later;
mod mark;
mod numbers;
mod text;
mod words;

pub use calls::read_line;
pub use text::put_words;
