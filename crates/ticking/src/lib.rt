// One tick, and stretches of ticks.
#![tactic(auto)]

pub mod stretch;
pub mod tick;
