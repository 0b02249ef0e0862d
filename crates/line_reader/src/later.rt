// The calls of the lines beside those of 01: a write in words, moments, stretches, and what stands
// beside the model.
ghost use Rattle.std.specs.Prelude.{◌≡◌, ◌≤◌, length, drop};
ghost use Rattle.line.specs.Words.{words};
ghost use Rattle.line.specs.Line.{reading, numbered as Line·numbered, decimal_call, set_words, set_from, set_reading, probe_reading, record_reading, degrees_reading, hex_call, listing_call};

use crate::calls::{EVERY, alone};
use crate::decimals::decimals;
use crate::numbers::tally;
use crate::words::{next_word, same};
use line::{Content, Counted, Form, Tally};

// `tick N`, `at T`, `stretch N` and `quietest W`.
pub(crate) fn decimal_call(k: Counted, s: &[u8], at: usize) -> Content
    requires { at ≤ length s.now }
    ensures { result ≡ decimal_call k (words (drop at s.now)) }
{
    let word = next_word(s, at);
    let start = word.start;
    let end = word.end;
    if end <= start {
        return Content::WrongCount;
    }
    match numeral::read_decimal(&s[start..end], 4294967295) {
        Some(n) => alone(numbered(k, n), s, end),
        None => Content::BadNumber,
    }
}

fn numbered(k: Counted, n: u32) -> Content
    ensures { result ≡ Line·numbered k n }
{
    match k {
        Counted::Tick => Content::Tick(n),
        Counted::At => Content::At(n),
        Counted::Stretch => Content::Stretch(n),
        Counted::Quietest => Content::Quietest(n),
    }
}

pub(crate) fn set_call(s: &[u8], at: usize, numbers: &mut [u32]) -> Content
    requires { at ≤ length s.now }
    ensures { reading result numbers.new ≡ set_reading numbers.old (words (drop at s.now)) }
{
    let word = next_word(s, at);
    let start = word.start;
    let end = word.end;
    if end <= start {
        return Content::WrongCount;
    }
    set_from(numeral::read_hex(&s[start..end], 2, 2), s, end, numbers)
}

// With the word of the address read.
fn set_from(address: Option<u32>, s: &[u8], at: usize, numbers: &mut [u32]) -> Content
    requires { at ≤ length s.now }
    ensures { reading result numbers.new ≡ set_from address numbers.old (words (drop at s.now)) }
{
    match address {
        None => Content::BadNumber,
        Some(a) => {
            if a < 48 {
                return Content::BadNumber;
            }
            if 67 < a {
                return Content::BadNumber;
            }
            set_words(a, s, at, numbers)
        }
    }
}

fn set_words(a: u32, s: &[u8], at: usize, numbers: &mut [u32]) -> Content
    requires { at ≤ length s.now }
    ensures { reading result numbers.new ≡ set_words a numbers.old (words (drop at s.now)) }
{
    let form = Form {
        least: 1,
        most: 4,
        looked: EVERY,
        slash: false,
    };
    match tally(s, at, form, numbers) {
        Tally::Wrong => Content::BadNumber,
        Tally::All {
            count,
            slashes: _,
            up: _,
        } => {
            if count < 1 {
                return Content::WrongCount;
            }
            if 99 < count {
                return Content::WrongCount;
            }
            Content::Set {
                address: a,
                words: count,
            }
        }
    }
}

pub(crate) fn probe_call(s: &[u8], at: usize, numbers: &mut [u32]) -> Content
    requires { at ≤ length s.now }
    ensures { reading result numbers.new ≡ probe_reading numbers.old (words (drop at s.now)) }
{
    match decimals(s, at, false, numbers) {
        Tally::Wrong => Content::BadNumber,
        Tally::All {
            count,
            slashes: _,
            up: _,
        } => {
            if count < 1 {
                Content::WrongCount
            } else {
                Content::Probe(count)
            }
        }
    }
}

pub(crate) fn record_call(s: &[u8], at: usize, numbers: &mut [u32]) -> Content
    requires { at ≤ length s.now }
    ensures { reading result numbers.new ≡ record_reading numbers.old (words (drop at s.now)) }
{
    match decimals(s, at, true, numbers) {
        Tally::Wrong => Content::BadNumber,
        Tally::All {
            count,
            slashes: _,
            up: _,
        } => Content::Record(count),
    }
}

pub(crate) fn degrees_call(s: &[u8], at: usize, numbers: &mut [u32]) -> Content
    requires { at ≤ length s.now }
    ensures { reading result numbers.new ≡ degrees_reading numbers.old (words (drop at s.now)) }
{
    let form = Form {
        least: 1,
        most: 8,
        looked: 2,
        slash: false,
    };
    match tally(s, at, form, numbers) {
        Tally::Wrong => Content::BadNumber,
        Tally::All {
            count,
            slashes: _,
            up: _,
        } => {
            if count == 2 {
                Content::Degrees
            } else {
                Content::WrongCount
            }
        }
    }
}

pub(crate) fn listing_call(s: &[u8], at: usize) -> Content
    requires { at ≤ length s.now }
    ensures { result ≡ listing_call (words (drop at s.now)) }
{
    let word = next_word(s, at);
    let start = word.start;
    let end = word.end;
    if end <= start {
        return Content::WrongCount;
    }
    if same(&s[start..end], b"old") {
        hex_call(true, s, end)
    } else {
        hex_call(false, s, at)
    }
}

// The capture number, with the form of the listing.
fn hex_call(old: bool, s: &[u8], at: usize) -> Content
    requires { at ≤ length s.now }
    ensures { result ≡ hex_call old (words (drop at s.now)) }
{
    let word = next_word(s, at);
    let start = word.start;
    let end = word.end;
    if end <= start {
        return Content::WrongCount;
    }
    match numeral::read_hex(&s[start..end], 1, 8) {
        Some(n) => alone(Content::Listing { old, first: n }, s, end),
        None => Content::BadNumber,
    }
}
