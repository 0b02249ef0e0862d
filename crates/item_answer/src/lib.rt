// What the lines of an item answer and leave. The definitions and their facts stand in specs/ and proofs/; here are the types in which code
// hands on an item and what a line adds to the counts.
#![tactic(auto)]

use device::Model;

// What an item has beside its lists: its model, its moment, and how many differences and entries its record and its probe table have. They and
// the user flash stand in lent lists.
#[derive(Clone, Copy)]
pub struct Carried {
    pub model: Model,
    pub moment: u64,
    pub recorded: usize,
    pub probes: usize,
}

// The counts of the last line, or what a line adds to them.
#[derive(Clone, Copy)]
pub struct Counts {
    pub calls: u64,
    pub refused: u64,
    pub unannounced: u64,
    pub bad: u64,
    pub expectations: u64,
    pub differ: u64,
}

// What a line leaves: the item, the place behind its answer, and what it adds to the counts.
#[derive(Clone, Copy)]
pub struct Stepped {
    pub carried: Carried,
    pub end: usize,
    pub adds: Counts,
}
