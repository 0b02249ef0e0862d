// One line on an item, by what was read of it: its answer is put into a lent buffer, and what it leaves and adds to the counts is told.
#![tactic(auto)]

mod asks;
mod calls;
mod close;
mod keeps;
mod lines;
mod plain;

pub use lines::answer_line;
