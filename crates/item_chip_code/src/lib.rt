// The code of the lines that speak to the chip, on a model that is known to be sound: each puts the first line of its answer, without the line
// feed, and gives the item after it; `read` and `expect` put all of it and count. The record and the probe table stay as they are.
#![tactic(auto)]

mod asking;
mod comparing;
mod deliveries;
mod frames;
mod reading;
mod replies;
mod stretches;
mod transactions;

pub use asking::{ask, put_further};
pub use deliveries::{flight, temperature};
use device::Answer;
use item_answer::Carried;
pub use reading::{expect, read};
pub use stretches::stretch;
pub use transactions::{bus, set};

// What such a line leaves: the item, the place after the first line of its answer, and whether that is a refusal.
// A flag beside the place and no Result: the place is one of a refusal too.
#[derive(Clone, Copy)]
pub struct Answered {
    pub carried: Carried,
    pub end: usize,
    pub refused: bool,
}

// A transaction's answer, and the item after it.
#[derive(Clone, Copy)]
struct Exchanged {
    carried: Carried,
    answer: Answer,
}

// The words compared so far: the place after what differs, how many are expectations, and how many differ.
#[derive(Clone, Copy)]
struct Compared {
    end: usize,
    expectations: u64,
    differ: u64,
}
