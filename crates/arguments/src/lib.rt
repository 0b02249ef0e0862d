// What the arguments of the program `replay` ask for.
//
//     replay [--check] [--of N] [--files LIST] [--] [FILE ..]
//
// The words behind the program's name are handed over one by one, `begin` and then `next`, as long as
// `is_open` says that another one is needed. `asked` is what they ask for.
#![tactic(auto)]

mod places;
mod words;

pub use places::{asked, is_several};
pub use words::{begin, is_open, next};

// What the arguments ask for.
// Numbers with 0 for none: the definitions of specs/Arguments name these fields.
#[derive(Clone, Copy)]
pub struct Options {
    pub check: bool,
    // How many files there are, or 0 where that is not told.
    pub total: u32,
    // The place of the list among the arguments, or 0.
    pub list: usize,
    // The place of the first file, and how many stand there.
    pub first: usize,
    pub files: usize,
}

// Which word can come next.
#[derive(Clone, Copy)]
pub enum Stage {
    // `--check`, or what can stand behind it.
    Check,
    // `--of`, or what can stand behind it.
    Of,
    // The N of `--of`.
    Total,
    // `--files`, or what can stand behind it.
    Files,
    // The LIST of `--files`.
    Name,
    // `--`, or the first file.
    Dashes,
    // No other word is needed.
    Closed,
}

// The options that the words so far have.
// A flag beside its number: the definitions of specs/Reading name these fields.
#[derive(Clone, Copy)]
pub struct Found {
    pub check: bool,
    // `--of` is there; and its number, or 0.
    pub told: bool,
    pub total: u32,
    // `--files` is there.
    pub listed: bool,
    // `--` is there.
    pub ended: bool,
}

// How far the words are read.
#[derive(Clone, Copy)]
pub struct Reading {
    pub stage: Stage,
    pub found: Found,
}
