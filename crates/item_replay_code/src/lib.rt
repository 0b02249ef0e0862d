// The code of `item_replay`: a piece of a text is answered line by line, with what a replay keeps between pieces in lent lists.
#![tactic(auto)]

mod after;
mod count;
mod ended;
mod going;
mod hold;
mod lines;
mod rest;
mod sorts;
mod ticks;
mod turning;
mod under;

pub use hold::HELD;
use item_answer::{Carried, Counts};
pub use lines::go;
use text::Span;
use unit::Ticks;

// What a replay keeps between pieces of its text, beside the lists that are lent: the number of the line that comes next or is under way, the
// item, the counts, how many bytes of the line are kept, and of a line of ticks that is under way the ticks that are left, the number of the next
// of them and whether the answer differs from what the line expects.
#[derive(Clone, Copy)]
pub struct State {
    pub number: u64,
    pub carried: Carried,
    pub counts: Counts,
    pub begun: usize,
    pub left: Ticks,
    pub next: u64,
    pub differs: bool,
}

// What a piece leaves: the state, how many bytes of it are taken, how many of answers are put, and how many lines are done.
#[derive(Clone, Copy)]
pub struct Gone {
    pub state: State,
    pub taken: usize,
    pub used: usize,
    pub count: usize,
}

// What a turn leaves: the state, the place after the bytes that are taken, the place after what is put, whether a line is done, what it adds, and
// whether more turns may follow.
#[derive(Clone, Copy)]
pub struct Turn {
    pub state: State,
    pub taken: usize,
    pub used: usize,
    pub done: bool,
    pub adds: Counts,
    pub more: bool,
}

// Where a line goes on: the place after what was taken of it, how many of its bytes are kept, and whether it has ended.
#[derive(Clone, Copy)]
pub struct Held {
    pub next: usize,
    pub begun: usize,
    pub whole: bool,
}

// A line of ticks that is under way: what its item carries, the ticks left, the number of the next, and the place after what is put.
#[derive(Clone, Copy)]
pub struct RestRan {
    pub carried: Carried,
    pub left: Ticks,
    pub next: u64,
    pub end: usize,
}

// A line of ticks that was begun: how far it is, and whether its answer differs from what the line expects.
#[derive(Clone, Copy)]
pub struct TicksBegun {
    pub rest: RestRan,
    pub differs: bool,
}

// What a line that was read asks of its turn: to run ticks, to put the page, or neither.
#[derive(Clone, Copy)]
pub enum Sort {
    Tick(Ticks, Option<Span>),
    At(Ticks, Option<Span>),
    Show,
    Other,
}
