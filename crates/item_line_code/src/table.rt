// The lines that may end with `=>`, by their first word.
ghost use Rattle.std.specs.Prelude.{◌≡◌, length};
ghost use Rattle.text.specs.OwnPart.{part};
ghost use Rattle.item_line_code.specs.OwnParts.{Within};
ghost use Rattle.item_line_code.specs.OwnReads.{Says, table_from};

use crate::Counted;
use crate::calls::{
    bus_line, decimal_line, degrees_line, flight_line, listing_line, probe_line, record_line,
    set_line, temperature_line,
};
use crate::reads::alone;
use item_line::{AskRead, CallRead, FaultRead, LineRead};
use text::Span;
use text_code::{part_of, same};

pub(crate) fn marked_line(
    text: &[u8],
    word: Span,
    rest: Span,
    expected: Option<Span>,
    numbers: &mut [u32],
) -> Result<LineRead, FaultRead>
    requires { Within text.now rest × (length numbers.old ≡ 512) }
    ensures { Says (table_from 0 (part text.now word)) text.now rest expected numbers.new result }
{
    let w = part_of(text, word);
    if same(w, b"bus") {
        return bus_line(text, rest, expected, numbers);
    }
    if same(w, b"set") {
        return set_line(text, rest, expected, numbers);
    }
    if same(w, b"tick") {
        return decimal_line(text, rest, expected, Counted::Tick);
    }
    if same(w, b"at") {
        return decimal_line(text, rest, expected, Counted::At);
    }
    delivery_line(text, word, rest, expected, numbers)
}

fn delivery_line(
    text: &[u8],
    word: Span,
    rest: Span,
    expected: Option<Span>,
    numbers: &mut [u32],
) -> Result<LineRead, FaultRead>
    requires { Within text.now rest × (length numbers.old ≡ 512) }
    ensures { Says (table_from 4 (part text.now word)) text.now rest expected numbers.new result }
{
    let w = part_of(text, word);
    if same(w, b"flight") {
        return flight_line(text, rest, expected, numbers);
    }
    if same(w, b"temperature") {
        return temperature_line(text, rest, expected, numbers);
    }
    if same(w, b"int") {
        return alone(text, rest, LineRead::Ask(AskRead::Int, expected));
    }
    if same(w, b"awaited") {
        return alone(text, rest, LineRead::Ask(AskRead::Awaited, expected));
    }
    if same(w, b"regs") {
        return alone(text, rest, LineRead::Ask(AskRead::Regs, expected));
    }
    other_line(text, word, rest, expected, numbers)
}

fn other_line(
    text: &[u8],
    word: Span,
    rest: Span,
    expected: Option<Span>,
    numbers: &mut [u32],
) -> Result<LineRead, FaultRead>
    requires { Within text.now rest × (length numbers.old ≡ 512) }
    ensures { Says (table_from 9 (part text.now word)) text.now rest expected numbers.new result }
{
    let w = part_of(text, word);
    if same(w, b"stretch") {
        return decimal_line(text, rest, expected, Counted::Stretch);
    }
    if same(w, b"frames") {
        return alone(text, rest, LineRead::Call(CallRead::Frames, expected));
    }
    if same(w, b"probe") {
        return probe_line(text, rest, expected, numbers);
    }
    if same(w, b"degrees") {
        return degrees_line(text, rest, expected, numbers);
    }
    last_line(text, word, rest, expected, numbers)
}

fn last_line(
    text: &[u8],
    word: Span,
    rest: Span,
    expected: Option<Span>,
    numbers: &mut [u32],
) -> Result<LineRead, FaultRead>
    requires { Within text.now rest × (length numbers.old ≡ 512) }
    ensures { Says (table_from 13 (part text.now word)) text.now rest expected numbers.new result }
{
    let w = part_of(text, word);
    if same(w, b"record") {
        return record_line(text, rest, expected, numbers);
    }
    if same(w, b"listing") {
        return listing_line(text, rest, expected);
    }
    if same(w, b"quietest") {
        return decimal_line(text, rest, expected, Counted::Quietest);
    }
    Err(FaultRead::UnknownWord(word))
}
