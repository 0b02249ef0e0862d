// The ticks of the lines `tick` and `at`: run one after the other, with their reports put into a buffer. Ticks in which nothing happens are
// taken at once.
#![tactic(auto)]

mod differing;
mod moving;
mod running;

use device::{Model, Report};
pub use differing::ticks_differ;
pub use running::{ROOM_OF_REPORTS, run_ticks};
use unit::Ticks;

// Some ticks on: the model after them, how many they were, and what the last of them reported of each kind; the others reported nothing.
#[derive(Clone, Copy)]
pub struct Moved {
    pub model: Model,
    pub ran: Ticks,
    pub flight: Report,
    pub temperature: Report,
}

// The ticks of a line that is under way: the model, how many are left, the number of the next, and the place after the reports so far.
#[derive(Clone, Copy)]
pub struct RanTicks {
    pub model: Model,
    pub left: Ticks,
    pub next: u64,
    pub end: usize,
}

// How far an answer's words have been held against those expected: the next of these, from `start` to before `end`, or none; and whether
// one has differed.
#[derive(Clone, Copy)]
pub struct Held {
    pub start: usize,
    pub end: usize,
    pub differs: bool,
}
