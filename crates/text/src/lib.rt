// Texts as bytes: their words and lines, and words in which a small x stands for any byte. Definitions and their facts; here is the type in which
// code tells a part of a text.
#![tactic(auto)]

// The places from `start` to before `end`.
#[derive(Clone, Copy)]
pub struct Span {
    pub start: usize,
    pub end: usize,
}
