// The code of `wording`: the words of the answers, put into a lent buffer from a place on, as numeral's functions do. No
// public function has a `requires`.
#![tactic(auto)]

pub mod bus;
pub mod delivery;
pub mod end;
pub mod expectation;
pub mod fault;
pub mod frames;
pub mod heads;
pub mod kept;
pub mod question;
pub mod refusals;
pub mod ticks;
