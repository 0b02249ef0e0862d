// Register reads and writes.
#![tactic(auto)]

pub mod read;
pub mod write;
