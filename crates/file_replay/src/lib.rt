// Replays files by their names: one by itself, or those of a run, with headings and a summary.
#![tactic(auto)]

mod names;
mod opened;
mod progress;
mod several;
mod single;
mod system;

pub use several::replay_several;
pub use single::{replay_argument, replay_input};
pub use system::System;
