// A list of calls, done one after the other on one model: the types of its parts. The definitions and their laws stand in specs/ and
// proofs/; `list_run` has the code.
#![tactic(auto)]

use device::Model;

// One call of a list: its kind, and two sizes.
// The kind is a number: a list's calls come over the C interface, three words each.
#[derive(Clone, Copy)]
pub struct Entry {
    pub kind: u32,
    pub first: u32,
    pub second: u32,
}

// How far a list is done: calls, bytes of frames, hit words, bytes of the output.
#[derive(Clone, Copy)]
pub struct Place {
    pub calls: usize,
    pub frames: usize,
    pub hits: usize,
    pub output: usize,
}

// The model so far, and how far the list is done.
#[derive(Clone, Copy)]
pub struct Progress {
    pub model: Model,
    pub place: Place,
}
