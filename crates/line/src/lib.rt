// A line of a replay's text, read into a call: what it holds, as types. The definitions and their laws stand in specs/ and proofs/;
// `line_reader` has the code.
#![tactic(auto)]

// What a line holds: nothing, a fault, an item's name or a call. Counts are of the numbers that the
// line left in the buffer, from its start on.
#[derive(Clone, Copy)]
pub enum Content {
    // A line that is passed over.
    Nothing,
    // Lines that are no calls, in the order in which the first that fits is given.
    TooLong,
    UnknownWord,
    BadNumber,
    WrongCount,
    // Calls.
    Item,
    Bus { bytes: usize },
    BusOut { out: u32, bytes: usize },
    Tick(u32),
    // The up words, and behind them the down words.
    Flight { up: usize, down: usize },
    Temperature(usize),
    Int,
    Awaited,
    Regs,
    Expect { address: u32, words: usize },
    Show,
    // A write of words from an address on.
    Set { address: u32, words: usize },
    At(u32),
    Stretch(u32),
    Frames,
    Probe(usize),
    // The probe's word and its reference's, the two numbers that the line left.
    Degrees,
    // Differences as two's complement words.
    Record(usize),
    Listing { old: bool, first: u32 },
    Quietest(u32),
}

// What a line holds, and the place from which the words stand that it expects of the answer, behind
// its `=>`; 0 where it has none.
#[derive(Clone, Copy)]
pub struct Said {
    pub content: Content,
    pub expected: usize,
}

// The first word of a line.
#[derive(Clone, Copy)]
pub enum Keyword {
    Item,
    Bus,
    Tick,
    Flight,
    Temperature,
    Int,
    Awaited,
    Regs,
    Expect,
    Show,
    Set,
    At,
    Stretch,
    Frames,
    Probe,
    Degrees,
    Record,
    Listing,
    Quietest,
    Unknown,
}

// What the one decimal of a line counts.
#[derive(Clone, Copy)]
pub enum Counted {
    Tick,
    At,
    Stretch,
    Quietest,
}

// How the words of a list are read: hexadecimal numbers of `least` to `most` digits. From the
// number `looked` on, words are counted and not looked into. With `slash`, a word `/` parts lists.
#[derive(Clone, Copy)]
pub struct Form {
    pub least: usize,
    pub most: usize,
    pub looked: usize,
    pub slash: bool,
}

// One word of such a list.
// Four cases, of which two are no word: neither an Option nor a Result.
#[derive(Clone, Copy)]
pub enum ListWord {
    Slash,
    Past,
    Word(u32),
    Wrong,
}

// A whole list: how many numbers and slashes it has, and how many numbers before the first slash.
// An enum of its own: `tallied` and `listed` of specs/Numbers name its cases.
#[derive(Clone, Copy)]
pub enum Tally {
    Wrong,
    All {
        count: usize,
        slashes: usize,
        up: usize,
    },
}

// A word's place: from `start` to before `end`. Where they are equal there is no word.
#[derive(Clone, Copy)]
pub struct Span {
    pub start: usize,
    pub end: usize,
}

// Digits from a place to before `end`, and their value.
#[derive(Clone, Copy)]
pub struct Digits {
    pub end: usize,
    pub value: u32,
}

// How far a list was read: the place after it, and the count of its numbers.
#[derive(Clone, Copy)]
pub struct Reached {
    pub at: usize,
    pub count: usize,
}
