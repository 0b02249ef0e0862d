// What a line expects of its answer.
ghost use Rattle.std.specs.Prelude.{◌++◌};
ghost use Rattle.numeral.specs.Ascii.{ascii};
ghost use Rattle.text.specs.Text.{spaced, words};
ghost use Rattle.text.specs.OwnPut.{Puts};
ghost use Rattle.item_line.specs.Line.{Expected};
ghost use Rattle.item_line.specs.OwnRead.{as_expected};
ghost use Rattle.item_keep_code.specs.OwnJudged.{Judges, line_at};

use crate::Judged;
use text::Span;
use text_code::{begin_with, count_words, part_of};

// Holds an answer's first line, which stands from `start` to `end`, against what its line expects, and ends it.
pub fn put_judged(buf: &mut [u8], start: usize, end: usize, text: &[u8], x: Option<Span>) -> Judged
    ensures { Judges buf.old end (line_at buf.old start end) (as_expected text.now x) result buf.new }
{
    match x {
        None => {
            Judged {
                end: numeral::put_text(buf, end, b"\n"),
                agrees: false,
                differs: false,
                expects: false,
            }
        }
        Some(span) => put_marked(buf, start, end, part_of(text, span)),
    }
}

// The same for a line with a `=>`.
fn put_marked(buf: &mut [u8], start: usize, end: usize, wanted: &[u8]) -> Judged
    ensures { Judges buf.old end (line_at buf.old start end) (Expected.marked (words wanted.now)) result buf.new }
{
    let expects = 0 < count_words(wanted);
    let span = Span { start, end };
    if begin_with(wanted, part_of(buf, span)) {
        return Judged {
            end: numeral::put_text(buf, end, b"\n"),
            agrees: true,
            differs: false,
            expects,
        };
    }
    Judged {
        end: put_expected(buf, end, wanted),
        agrees: false,
        differs: true,
        expects,
    }
}

// ` expected `, the words and the line feed.
fn put_expected(buf: &mut [u8], at: usize, wanted: &[u8]) -> usize
    ensures { Puts buf.old at (ascii " expected " ++ spaced (words wanted.now) ++ ascii "\n") result buf.new }
{
    let a = numeral::put_text(buf, at, b" expected ");
    let b = text_code::put_spaced(buf, a, wanted);
    numeral::put_text(buf, b, b"\n")
}
