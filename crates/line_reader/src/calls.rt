// A line's call.
ghost use Rattle.std.specs.Prelude.{◌≡◌, true, false, ◌≤◌, ◌-◌, length, take, drop};
ghost use Rattle.numeral.specs.Read.{read_decimal};
ghost use Rattle.line.specs.declared.Content.TheVariants.{Bus};
ghost use Rattle.line.specs.declared.Tally.TheVariants.{All};
ghost use Rattle.line.specs.Words.{words};
ghost use Rattle.line.specs.Mark.{Expects};
ghost use Rattle.line.specs.Line.{reading, item_call, byte_form, word_form, flight_call, bytes_reading, is_out, out_reading, bus_reading, alone as Line·alone, flight_reading, temperature_reading, expect_words, expect_from, expect_reading, keyword_reading, later_reading, words_reading, words_expected, content_length, line_reading, line_expected, Bounded};

use crate::keywords::keyword;
use crate::later;
use crate::mark::{behind_mark, call_part, takes_mark};
use crate::numbers::tally;
use crate::words::{next_word, same};
use line::{Content, Counted, Form, Keyword, Said, Tally};

// The count of numbers that no list reaches.
pub(crate) const EVERY: usize = usize::MAX;

// Reads a line, without its line feed.
pub fn read_line(line: &[u8], numbers: &mut [u32]) -> Said
    ensures numbers_after { reading result.content numbers.new ≡ line_reading numbers.old line.now }
    ensures expected { Expects (line_expected line.now) (take (content_length line.now) line.now) result.expected }
    ensures bounded { Bounded result.content }
{
    let n = content_length(line);
    if 1000 < n {
        Said {
            content: Content::TooLong,
            expected: 0,
        }
    } else {
        words_call(&line[..n], numbers)
    }
}

// A line's length without a carriage return at its end.
pub(crate) fn content_length(line: &[u8]) -> usize
    ensures { (result ≡ content_length line.now) × (result ≤ length line.now) }
{
    let n = line.len();
    if n < 1 {
        return 0;
    }
    if line[n - 1] == b'\r' { n - 1 } else { n }
}

fn words_call(s: &[u8], numbers: &mut [u32]) -> Said
    ensures { (reading result.content numbers.new ≡ words_reading numbers.old (words s.now)) × Expects (words_expected (words s.now)) s.now result.expected }
{
    let word = next_word(s, 0);
    let start = word.start;
    let end = word.end;
    if end <= start {
        return Said {
            content: Content::Nothing,
            expected: 0,
        };
    }
    if s[start] == b'#' {
        return Said {
            content: Content::Nothing,
            expected: 0,
        };
    }
    let k = keyword(&s[start..end]);
    let part = call_part(takes_mark(k), s, end);
    let stop = part.start;
    Said {
        content: keyword_call(k, &s[..stop], end, numbers),
        expected: behind_mark(part),
    }
}

// The call of a keyword, with the words from the place `at` on.
fn keyword_call(k: Keyword, s: &[u8], at: usize, numbers: &mut [u32]) -> Content
    requires { at ≤ length s.now }
    ensures { reading result numbers.new ≡ keyword_reading k numbers.old (words (drop at s.now)) }
{
    match k {
        Keyword::Item => item_call(s, at),
        Keyword::Bus => bus_call(s, at, numbers),
        Keyword::Tick => later::decimal_call(Counted::Tick, s, at),
        Keyword::Flight => flight_call(s, at, numbers),
        Keyword::Temperature => temperature_call(s, at, numbers),
        Keyword::Int => alone(Content::Int, s, at),
        Keyword::Awaited => alone(Content::Awaited, s, at),
        Keyword::Regs => alone(Content::Regs, s, at),
        Keyword::Expect => expect_call(s, at, numbers),
        Keyword::Show => alone(Content::Show, s, at),
        _ => later_call(k, s, at, numbers),
    }
}

fn later_call(k: Keyword, s: &[u8], at: usize, numbers: &mut [u32]) -> Content
    requires { at ≤ length s.now }
    ensures { reading result numbers.new ≡ later_reading k numbers.old (words (drop at s.now)) }
{
    match k {
        Keyword::Set => later::set_call(s, at, numbers),
        Keyword::At => later::decimal_call(Counted::At, s, at),
        Keyword::Stretch => later::decimal_call(Counted::Stretch, s, at),
        Keyword::Frames => alone(Content::Frames, s, at),
        Keyword::Probe => later::probe_call(s, at, numbers),
        Keyword::Degrees => later::degrees_call(s, at, numbers),
        Keyword::Record => later::record_call(s, at, numbers),
        Keyword::Listing => later::listing_call(s, at),
        Keyword::Quietest => later::decimal_call(Counted::Quietest, s, at),
        _ => Content::UnknownWord,
    }
}

fn item_call(s: &[u8], at: usize) -> Content
    requires { at ≤ length s.now }
    ensures { result ≡ item_call (words (drop at s.now)) }
{
    let word = next_word(s, at);
    if word.end <= word.start {
        Content::WrongCount
    } else {
        Content::Item
    }
}

// A call that has no further word.
pub(crate) fn alone(content: Content, s: &[u8], at: usize) -> Content
    requires { at ≤ length s.now }
    ensures { result ≡ Line·alone content (words (drop at s.now)) }
{
    let word = next_word(s, at);
    if word.end <= word.start {
        content
    } else {
        Content::WrongCount
    }
}

fn bus_call(s: &[u8], at: usize, numbers: &mut [u32]) -> Content
    requires { at ≤ length s.now }
    ensures { reading result numbers.new ≡ bus_reading numbers.old (words (drop at s.now)) }
{
    let word = next_word(s, at);
    let start = word.start;
    let end = word.end;
    if end <= start {
        return bytes_call(s, at, numbers);
    }
    if is_out(&s[start..end]) {
        out_call(out_number(&s[start..end]), s, end, numbers)
    } else {
        bytes_call(s, at, numbers)
    }
}

// A word that starts with `out=`.
fn is_out(word: &[u8]) -> bool
    ensures { result ≡ is_out word.now }
{
    if word.len() < 4 {
        return false;
    }
    same(&word[..4], b"out=")
}

// The number after `out=`.
fn out_number(word: &[u8]) -> Option<u32>
    requires { is_out word.now ≡ true }
    ensures { result ≡ read_decimal 200 (drop 4 word.now) }
{
    numeral::read_decimal(&word[4..], 200)
}

fn bytes_call(s: &[u8], at: usize, numbers: &mut [u32]) -> Content
    requires { at ≤ length s.now }
    ensures { reading result numbers.new ≡ bytes_reading Bus numbers.old (words (drop at s.now)) }
{
    match tally(s, at, byte_form(), numbers) {
        Tally::Wrong => Content::BadNumber,
        Tally::All {
            count,
            slashes: _,
            up: _,
        } => {
            if 200 < count {
                Content::WrongCount
            } else {
                Content::Bus { bytes: count }
            }
        }
    }
}

fn out_call(out: Option<u32>, s: &[u8], at: usize, numbers: &mut [u32]) -> Content
    requires { at ≤ length s.now }
    ensures { reading result numbers.new ≡ out_reading out numbers.old (words (drop at s.now)) }
{
    match out {
        None => Content::BadNumber,
        Some(n) => match tally(s, at, byte_form(), numbers) {
            Tally::Wrong => Content::BadNumber,
            Tally::All {
                count,
                slashes: _,
                up: _,
            } => {
                if 200 < count {
                    Content::WrongCount
                } else {
                    Content::BusOut {
                        out: n,
                        bytes: count,
                    }
                }
            }
        },
    }
}

// Two digits.
fn byte_form() -> Form
    ensures { result ≡ byte_form }
{
    Form {
        least: 2,
        most: 2,
        looked: EVERY,
        slash: false,
    }
}

// One to eight digits.
fn word_form(slash: bool) -> Form
    ensures { result ≡ word_form slash }
{
    Form {
        least: 1,
        most: 8,
        looked: EVERY,
        slash,
    }
}

fn flight_call(s: &[u8], at: usize, numbers: &mut [u32]) -> Content
    requires { at ≤ length s.now }
    ensures { reading result numbers.new ≡ flight_reading numbers.old (words (drop at s.now)) }
{
    match tally(s, at, word_form(true), numbers) {
        Tally::Wrong => Content::BadNumber,
        Tally::All { count, slashes, up } => flight_of(count, slashes, up),
    }
}

fn flight_of(count: usize, slashes: usize, up: usize) -> Content
    ensures { result ≡ flight_call (All count slashes up) }
{
    if slashes != 1 {
        return Content::WrongCount;
    }
    if 16 < up {
        return Content::WrongCount;
    }
    let down = count.saturating_sub(up);
    if 16 < down {
        return Content::WrongCount;
    }
    Content::Flight { up, down }
}

fn temperature_call(s: &[u8], at: usize, numbers: &mut [u32]) -> Content
    requires { at ≤ length s.now }
    ensures { reading result numbers.new ≡ temperature_reading numbers.old (words (drop at s.now)) }
{
    match tally(s, at, word_form(false), numbers) {
        Tally::Wrong => Content::BadNumber,
        Tally::All {
            count,
            slashes: _,
            up: _,
        } => {
            if 16 < count {
                Content::WrongCount
            } else {
                Content::Temperature(count)
            }
        }
    }
}

fn expect_call(s: &[u8], at: usize, numbers: &mut [u32]) -> Content
    requires { at ≤ length s.now }
    ensures { reading result numbers.new ≡ expect_reading numbers.old (words (drop at s.now)) }
{
    let word = next_word(s, at);
    let start = word.start;
    let end = word.end;
    if end <= start {
        return Content::WrongCount;
    }
    expect_from(numeral::read_hex(&s[start..end], 2, 2), s, end, numbers)
}

// With the word of the address read.
fn expect_from(address: Option<u32>, s: &[u8], at: usize, numbers: &mut [u32]) -> Content
    requires { at ≤ length s.now }
    ensures { reading result numbers.new ≡ expect_from address numbers.old (words (drop at s.now)) }
{
    match address {
        None => Content::BadNumber,
        Some(a) => {
            if a < 176 {
                return Content::BadNumber;
            }
            if 255 < a {
                return Content::BadNumber;
            }
            expect_words(a, s, at, numbers)
        }
    }
}

fn expect_words(a: u32, s: &[u8], at: usize, numbers: &mut [u32]) -> Content
    requires { (a ≤ 255) × (at ≤ length s.now) }
    ensures { reading result numbers.new ≡ expect_words a numbers.old (words (drop at s.now)) }
{
    let most = (256 - a) as usize;
    let form = Form {
        least: 1,
        most: 4,
        looked: most,
        slash: false,
    };
    match tally(s, at, form, numbers) {
        Tally::Wrong => Content::BadNumber,
        Tally::All {
            count,
            slashes: _,
            up: _,
        } => {
            if count < 1 {
                return Content::WrongCount;
            }
            if most < count {
                return Content::WrongCount;
            }
            Content::Expect {
                address: a,
                words: count,
            }
        }
    }
}
