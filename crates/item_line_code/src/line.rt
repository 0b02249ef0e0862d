// A whole line.
ghost use Rattle.std.specs.Prelude.{◌≡◌, List, ℕ, ◌≤◌, length, take};
ghost use Rattle.text.specs.Text.{without_return};
ghost use Rattle.text.specs.OwnPart.{part};
ghost use Rattle.item_line.specs.Reading.{item_line, without_comment, words_line, line_of};
ghost use Rattle.item_line.specs.OwnRead.{as_line};
ghost use Rattle.item_line_code.specs.OwnParts.{Within, words_in, Opens};
ghost use Rattle.item_line_code.specs.OwnReads.{Gives, worded_line};

use crate::parts::{cut, next_in, split};
use crate::reads::alone;
use crate::table::marked_line;
use crate::wanted::wanted_line;
use item_line::{FaultRead, LineRead};
use text::Span;
use text_code::{first_bytes, part_of, same};

// Reads a line, without its line feed.
pub fn read_line(text: &[u8], numbers: &mut [u32]) -> LineRead
    requires { length numbers.old ≡ 512 }
    ensures { as_line text.now numbers.new result ≡ line_of text.now }
{
    let n = content_length(text);
    if 1000 < n {
        return LineRead::Bad(FaultRead::TooLong);
    }
    match words_line(text, Span { start: 0, end: n }, numbers) {
        Ok(line) => line,
        Err(fault) => LineRead::Bad(fault),
    }
}

// A line's length without a carriage return at its end.
fn content_length(text: &[u8]) -> usize
    ensures { (without_return text.now ≡ take result text.now) × (result ≤ length text.now) }
{
    let n = text.len();
    if n < 1 {
        return 0;
    }
    if text[n - 1] == 13 { n - 1 } else { n }
}

fn words_line(text: &[u8], rest: Span, numbers: &mut [u32]) -> Result<LineRead, FaultRead>
    requires { Within text.now rest × (length numbers.old ≡ 512) }
    ensures { Gives words_line text.now rest numbers.new result }
{
    let word = next_in(text, rest);
    let end = word.end;
    if end <= word.start {
        return Ok(LineRead::Silent);
    }
    let w = part_of(text, word);
    if same(first_bytes(w, 1), b"#") {
        return Ok(LineRead::Silent);
    }
    let further = Span {
        start: end,
        end: rest.end,
    };
    if same(w, b"item") {
        return item_line(text, further);
    }
    worded(text, word, further, numbers)
}

fn item_line(text: &[u8], rest: Span) -> Result<LineRead, FaultRead>
    requires { Within text.now rest }
    ensures { (l : List ℕ) → Gives item_line text.now rest l result }
{
    let word = next_in(text, rest);
    if word.end <= word.start {
        Err(FaultRead::WrongCount)
    } else {
        Ok(LineRead::Item(rest))
    }
}

// A line's words before its comment, by the first.
fn worded(text: &[u8], word: Span, rest: Span, numbers: &mut [u32]) -> Result<LineRead, FaultRead>
    requires { Within text.now rest × Opens text.now rest.start rest.end × (length numbers.old ≡ 512) }
    ensures { Gives (worded_line (part text.now word)) text.now rest numbers.new result }
{
    let w = part_of(text, word);
    if same(w, b"show") {
        return alone(text, uncommented(text, rest), LineRead::Show);
    }
    if same(w, b"expect") {
        return wanted_line(text, uncommented(text, rest), false);
    }
    if same(w, b"read") {
        return wanted_line(text, uncommented(text, rest), true);
    }
    let parts = split(text, rest);
    let before = parts.before;
    let expected = parts.expected;
    marked_line(text, word, before, expected, numbers)
}

// A part without its comment.
fn uncommented(text: &[u8], rest: Span) -> Span
    requires { Within text.now rest × Opens text.now rest.start rest.end }
    ensures within { Within text.now result }
    ensures words { words_in text.now result ≡ without_comment (words_in text.now rest) }
{
    let found = cut(text, rest, false);
    Span {
        start: rest.start,
        end: found.end,
    }
}
