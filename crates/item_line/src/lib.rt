// What a line of an item says: its call with its numbers, or the fault. The definitions and their facts stand in specs/ and proofs/; here are
// the types in which code hands on what it has read of a line. A number of words counts those that the line left in a lent list of numbers, from
// its start on; a part of the line is told by its places.
#![tactic(auto)]

use listing::Width;
use text::Span;
use unit::Ticks;

// Why a line is no call; a word that is named is told by its place.
#[derive(Clone, Copy)]
pub enum FaultRead {
    TooLong,
    UnknownWord(Span),
    BadNumber(Span),
    WrongCount,
    Past,
    NoRoom,
}

#[derive(Clone, Copy)]
pub enum CallRead {
    // How many bytes its output buffer has, where the line says so, and how many bytes it sends.
    Bus(Option<usize>, usize),
    // The address, and how many words.
    Set(u32, usize),
    Tick(Ticks),
    At(Ticks),
    Stretch(Ticks),
    // How many up words, and behind them how many down words.
    Flight(usize, usize),
    Temperature(usize),
    Frames,
    // The probe's word and its reference's are the two numbers.
    Degrees,
    Listing(Width, u32),
    Quietest(u32),
}

#[derive(Clone, Copy)]
pub enum AskRead {
    Int,
    Awaited,
    Regs,
}

#[derive(Clone, Copy)]
pub enum KeepRead {
    Probe(usize),
    // Two's complement words.
    Differences(usize),
}

#[derive(Clone, Copy)]
pub enum LineRead {
    Silent,
    Bad(FaultRead),
    // The part of the line whose words are the name.
    Item(Span),
    Show,
    // The address, and the part of the line whose words are wanted.
    Expect(u32, Span),
    Read(u32, Span),
    // These three with the part of the line whose words are expected, where it has a `=>`.
    Call(CallRead, Option<Span>),
    Ask(AskRead, Option<Span>),
    Keep(KeepRead, Option<Span>),
}
