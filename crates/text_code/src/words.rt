// The words of a text.
ghost use Rattle.std.specs.Prelude.{◌≡◌, false, ◌≤◌, ◌<◌, length, get_or};
ghost use Rattle.std.specs.Iterator.{YieldsFirstRef, item_count};
ghost use Rattle.text.specs.Text.{is_blank, words};
ghost use Rattle.text_code.specs.OwnWords.{Skipped, Ended, Next};

use text::Span;

// The words of a text, one after the other.
#[derive(Drop)]
pub struct Words<'a> {
    rest: &'a [u8],
}

impl<'a> Iterator for Words<'a> {
    type Item = &'a [u8];

    ghost next_gives = { YieldsFirstRef (λ s. words s.rest.now) };

    ghost remaining = { item_count (λ s. words s.rest.now) };

    fn next(&mut self) -> Option<&'a [u8]> {
        let word = next_word(self.rest, 0);
        if word.end <= word.start {
            return None;
        }
        let first = &self.rest[word.start..word.end];
        self.rest = &self.rest[word.end..];
        Some(first)
    }
}

pub fn each_word(s: &[u8]) -> Words
    ensures { result.rest.now ≡ s.now }
{
    Words { rest: s }
}

// The first word at or after the place `at`.
pub fn next_word(s: &[u8], at: usize) -> Span
    requires { at ≤ length s.now }
    ensures { Next s.now at result.start result.end }
{
    let start = skip_blanks(s, at);
    let end = if start < s.len() {
        word_end(s, start)
    } else {
        start
    };
    Span { start, end }
}

// The first place from `at` on where no blank stands.
pub fn skip_blanks(s: &[u8], at: usize) -> usize
    requires { at ≤ length s.now }
    ensures { Skipped s.now at result }
{
    for i in at..s.len() {
        if !is_blank(s[i]) {
            return i;
        }
    }
    s.len()
}

// The end of the word that starts at a place.
fn word_end(s: &[u8], start: usize) -> usize
    requires { (start < length s.now) × (is_blank (get_or s.now start 0) ≡ false) }
    ensures { Ended s.now start result }
{
    for i in start + 1..s.len() {
        if is_blank(s[i]) {
            return i;
        }
    }
    s.len()
}

// A blank or a tab.
pub fn is_blank(c: u8) -> bool
    ensures { result ≡ is_blank c }
{
    c == b' ' || c == b'\t'
}

pub fn count_words(s: &[u8]) -> usize
    ensures { result ≡ length (words s.now) }
{
    each_word(s).count()
}
