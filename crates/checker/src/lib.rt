// The code of `item_checks`: what stands around a line's answer.
#![tactic(auto)]

pub mod close;
mod fault;
pub mod open;
