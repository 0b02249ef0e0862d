// Split of a line: the words one after the other, and what stands before a comment and before the mark.
ghost use Rattle.std.specs.Prelude.{◌≡◌};
ghost use Rattle.item_line_code.specs.OwnParts.{Within, Opens, NextIn, is_stop, CutAt, SplitAt};

use crate::{Cut, Split};
use text::Span;
use text_code::{next_word, same};

// The first word of a part.
pub(crate) fn next_in(text: &[u8], rest: Span) -> Span
    requires { Within text.now rest }
    ensures { NextIn text.now rest result }
{
    let end = rest.end;
    next_word(&text[..end], rest.start)
}

// Cuts a part at its comment, or at the mark where marks count.
pub(crate) fn cut(text: &[u8], rest: Span, marks: bool) -> Cut
    requires { Within text.now rest × Opens text.now rest.start rest.end }
    ensures { CutAt marks text.now rest result }
{
    let end = rest.end;
    let mut i = rest.start;
    // A while: it goes from word to word, and the answer needs their places.
    while i < end {
        let word = next_in(text, Span { start: i, end });
        let from = word.start;
        let to = word.end;
        if to <= from {
            return Cut { end: i, word };
        }
        if is_stop(&text[from..to], marks) {
            return Cut { end: i, word };
        }
        i = to;
    }
    Cut {
        end: i,
        word: Span { start: i, end: i },
    }
}

fn is_stop(word: &[u8], marks: bool) -> bool
    ensures { result ≡ is_stop marks word.now }
{
    same(word, b"#") || marks && same(word, b"=>")
}

// A line's words before its mark and before its comment, and what it expects.
pub(crate) fn split(text: &[u8], rest: Span) -> Split
    requires { Within text.now rest × Opens text.now rest.start rest.end }
    ensures { SplitAt text.now rest result }
{
    let found = cut(text, rest, true);
    let before = Span {
        start: rest.start,
        end: found.end,
    };
    let from = found.word.start;
    let to = found.word.end;
    if to <= from {
        return Split {
            before,
            expected: None,
        };
    }
    if same(&text[from..to], b"=>") {
        let further = Span {
            start: to,
            end: rest.end,
        };
        let after = cut(text, further, false);
        Split {
            before,
            expected: Some(Span {
                start: to,
                end: after.end,
            }),
        }
    } else {
        Split {
            before,
            expected: None,
        }
    }
}
