// The files of one run: what each of them comes to, and the summary that closes the run.
//
// Five groups of files need a look. A group counts its files, and keeps their names in a buffer that
// the caller lends, as the summary has them: in lines of their own. Where the buffer has no room for a
// name, the file is counted and not named.
//
// The definitions and their laws stand in specs/ and proofs/; `tally` has the code.
#![tactic(auto)]

// How a replay ended: whether all of the file was read, and what its last line counts.
#[derive(Clone, Copy)]
pub struct Outcome {
    pub whole: bool,
    pub unannounced: usize,
    pub bad: usize,
    pub expected: usize,
    pub differ: usize,
}

// What a file is: an expectation differs, a refusal is not announced, a line is bad, it can't be read,
// it has no expectation.
// Five flags: the definitions of specs/Kind name each.
#[derive(Clone, Copy)]
pub struct Kinds {
    pub differ: bool,
    pub unannounced: bool,
    pub bad: bool,
    pub unread: bool,
    pub plain: bool,
}

// A group: its files, those of them that are named, and the bytes of the names.
#[derive(Clone, Copy)]
pub struct Group {
    pub count: usize,
    pub named: usize,
    pub used: usize,
}

// The files of a run, those that agree, and the group of each kind.
#[derive(Clone, Copy)]
pub struct Tally {
    pub files: usize,
    pub agree: usize,
    pub differ: Group,
    pub unannounced: Group,
    pub bad: Group,
    pub unread: Group,
    pub plain: Group,
}
