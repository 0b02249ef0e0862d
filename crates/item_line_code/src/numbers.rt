// Lists of numbers.
ghost use Rattle.std.specs.Prelude.{◌≡◌, ◌≤◌, eqb, length, set, drop};
ghost use Rattle.unit.specs.Choice.{pick, both};
ghost use Rattle.text.specs.Text.{words, is};
ghost use Rattle.item_line_code.specs.OwnNumbers.{number_in, list_word, EndsBy, Tallies};

use crate::hex::clean_numbers;
use crate::{Form, Kind, ListWord, Tally};
use text::Span;
use text_code::{next_word, same};

// Reads the words from the place `at` on, and stores their numbers.
pub(crate) fn tally(s: &[u8], at: usize, form: Form, numbers: &mut [u32]) -> Tally
    requires { at ≤ length s.now }
    ensures tallies { Tallies form s.now (words (drop at s.now)) numbers.old result numbers.new }
    ensures ends { EndsBy (length s.now) result }
{
    let mut i = at;
    let mut count: usize = 0;
    let mut slashes: usize = 0;
    let mut up: usize = 0;
    // A while: it goes from word to word, many of them at once where they are clean.
    while i < s.len() {
        let clean = clean_numbers(s, i, form, count, numbers);
        let n = clean.count;
        let word = next_word(s, clean.at);
        let start = word.start;
        let end = word.end;
        if end <= start {
            return Tally::All {
                count: n,
                slashes,
                up,
            };
        }
        match list_word(&s[start..end], form) {
            ListWord::Wrong => return Tally::Wrong(Span { start, end }),
            ListWord::Slash => {
                up = first_slash(slashes, n, up);
                slashes += 1;
                count = n;
            }
            ListWord::Word(v) => {
                store(numbers, n, v);
                count = n + 1;
            }
        }
        i = end;
    }
    Tally::All { count, slashes, up }
}

// What a word is.
fn list_word(word: &[u8], form: Form) -> ListWord
    ensures { result ≡ list_word form word.now }
{
    if is_slash(form.slash, word) {
        return ListWord::Slash;
    }
    match number_in(word, form) {
        Some(v) => ListWord::Word(v),
        None => ListWord::Wrong,
    }
}

// The number of a word.
pub(crate) fn number_in(word: &[u8], form: Form) -> Option<u32>
    ensures { result ≡ number_in form word.now }
{
    match form.kind {
        Kind::Hex => numeral::read_hex(word, form.least, form.most),
        Kind::Count => numeral::read_decimal(word, u32::MAX),
        Kind::Quanta => numeral::read_signed(word),
    }
}

fn is_slash(slash: bool, word: &[u8]) -> bool
    ensures { result ≡ both slash (is "/" word.now) }
{
    slash && same(word, b"/")
}

// The numbers before the first slash, at another slash.
fn first_slash(slashes: usize, count: usize, up: usize) -> usize
    ensures { result ≡ pick (eqb slashes 0) count up }
{
    if slashes == 0 { count } else { up }
}

// A number in its place, where there is one.
pub(crate) fn store(numbers: &mut [u32], i: usize, v: u32)
    ensures { numbers.new ≡ set numbers.old i v }
{
    if i < numbers.len() {
        numbers[i] = v;
    }
}
