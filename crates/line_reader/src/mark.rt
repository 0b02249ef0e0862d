// The mark `=>`: where a line's call ends, and the words that it expects begin.
ghost use Rattle.std.specs.Prelude.{◌≡◌, true, ◌≤◌, ◌<◌, length, get_or};
ghost use Rattle.line.specs.Words.{is_blank};
ghost use Rattle.line.specs.Mark.{takes_mark, CallPart, behind_place};

use crate::words::{next_word, same};
use line::{Keyword, Span};

// Whether a line may end with a mark and words.
pub(crate) fn takes_mark(k: Keyword) -> bool
    ensures { result ≡ takes_mark k }
{
    match k {
        Keyword::Item => false,
        Keyword::Expect => false,
        Keyword::Show => false,
        _ => true,
    }
}

// From the place `at` on, the call's words end at `start`; where there is a mark, it ends at `end`.
pub(crate) fn call_part(takes: bool, s: &[u8], at: usize) -> Span
    requires { (at ≤ length s.now) × (at < length s.now → is_blank (get_or s.now at 0) ≡ true) }
    ensures { CallPart takes s.now at result.start result.end }
{
    if takes {
        marked_part(s, at)
    } else {
        let n = s.len();
        Span { start: n, end: n }
    }
}

fn marked_part(s: &[u8], at: usize) -> Span
    requires { (at ≤ length s.now) × (at < length s.now → is_blank (get_or s.now at 0) ≡ true) }
    ensures { CallPart true s.now at result.start result.end }
{
    // Kept as a while: a turn takes a word, and goes on behind it.
    let mut i = at;
    while i < s.len() {
        let word = next_word(s, i);
        let start = word.start;
        let end = word.end;
        if end <= start {
            return Span { start: i, end: i };
        }
        if same(&s[start..end], b"=>") {
            return Span { start: i, end };
        }
        i = end;
    }
    Span { start: i, end: i }
}

// The place behind a mark, or 0.
pub(crate) fn behind_mark(part: Span) -> usize
    ensures { result ≡ behind_place part.start part.end }
{
    if part.start < part.end { part.end } else { 0 }
}
