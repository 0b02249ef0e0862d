// The lines on what an item keeps beside its model, and what stands around an answer: what its line expects, its line feed, the counts.
// A function `put_..` puts the first line of an answer without its line feed; the lines after it, where there are any, are put by another.
#![tactic(auto)]

pub mod analysis;
pub mod bad;
pub mod counts;
pub mod differences;
pub mod frames;
pub mod item;
pub mod judge;
mod refused;
pub mod table;

// What a line that adds leaves: whether there was room, how many there are then, and the place after the answer's first line.
#[derive(Clone, Copy)]
pub struct Added {
    pub fits: bool,
    pub count: usize,
    pub end: usize,
}

// The place after the first line of an answer, and whether it is a refusal.
// A flag beside the place and no Result: the place is one of a refusal too.
#[derive(Clone, Copy)]
pub struct Answered {
    pub end: usize,
    pub refused: bool,
}

// The place after an answer's first line with its line feed; whether the line's `=>` agrees with the answer, differs from it, and has a word.
#[derive(Clone, Copy)]
pub struct Judged {
    pub end: usize,
    pub agrees: bool,
    pub differs: bool,
    pub expects: bool,
}
