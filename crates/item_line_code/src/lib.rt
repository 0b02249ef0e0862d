// The code of `item_line`: a line of an item, read into what it says. The numbers of a line go into a list that the caller lends.
#![tactic(auto)]

mod calls;
mod hex;
mod line;
mod numbers;
mod parts;
mod reads;
mod table;
mod wanted;

pub use line::read_line;
use text::Span;

// How a word stands for a number.
#[derive(Clone, Copy)]
pub enum Kind {
    Hex,
    Count,
    Quanta,
}

// The form of a list's words. The number of digits is that of hexadecimal ones.
#[derive(Clone, Copy)]
pub struct Form {
    pub kind: Kind,
    pub least: usize,
    pub most: usize,
    // Slashes part the list.
    pub slash: bool,
}

#[derive(Clone, Copy)]
pub enum ListWord {
    Slash,
    Word(u32),
    Wrong,
}

// What a list of words comes to: how many numbers, slashes, and numbers before the first slash; or the first word that is none of the form.
#[derive(Clone, Copy)]
pub enum Tally {
    All {
        count: usize,
        slashes: usize,
        up: usize,
    },
    Wrong(Span),
}

// Digits that end before a place, and their value.
#[derive(Clone, Copy)]
pub struct Digits {
    pub end: usize,
    pub value: u32,
}

// The place up to which numbers were stored, and how many there are.
#[derive(Clone, Copy)]
pub struct Reached {
    pub at: usize,
    pub count: usize,
}

// Where the words of a part end that stand before a comment or a mark, and that word; it is empty where there is none.
#[derive(Clone, Copy)]
pub struct Cut {
    pub end: usize,
    pub word: Span,
}

// The part of a line before its mark, and what the line expects.
#[derive(Clone, Copy)]
pub struct Split {
    pub before: Span,
    pub expected: Option<Span>,
}

// The calls of one decimal.
#[derive(Clone, Copy)]
pub enum Counted {
    Tick,
    At,
    Stretch,
    Quietest,
}
