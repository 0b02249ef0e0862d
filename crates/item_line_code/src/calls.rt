// The lines that may end with `=>`, each by the words after its first.
ghost use Rattle.std.specs.Prelude.{◌≡◌, List, ℕ, length, take, drop};
ghost use Rattle.numeral.specs.Read.{read_decimal};
ghost use Rattle.text.specs.Text.{is};
ghost use Rattle.item_line.specs.Reading.{bytes_line, bus_line, set_line, flight_line, temperature_line, probe_line, degrees_line, record_line, listing_line};
ghost use Rattle.item_line.specs.OwnRead.{as_output, as_call};
ghost use Rattle.item_line_code.specs.OwnNumbers.{word_form};
ghost use Rattle.item_line_code.specs.OwnParts.{Within};
ghost use Rattle.item_line_code.specs.OwnReads.{counted_call, counted_line, listing_of, Says};

use crate::numbers::{number_in, store};
use crate::parts::next_in;
use crate::reads::{address_in, counted_numbers, numbers_in, one_number};
use crate::{Counted, Form, Kind, Tally};
use item_line::{CallRead, FaultRead, KeepRead, LineRead};
use listing::Width;
use text::Span;
use text_code::{bytes_from, first_bytes, same};
use unit::Ticks;

// A call of one decimal.
pub(crate) fn decimal_line(
    text: &[u8],
    rest: Span,
    expected: Option<Span>,
    counted: Counted,
) -> Result<LineRead, FaultRead>
    requires { Within text.now rest }
    ensures { (l : List ℕ) → Says (counted_line counted) text.now rest expected l result }
{
    let form = Form {
        kind: Kind::Count,
        least: 1,
        most: 8,
        slash: false,
    };
    let n = one_number(text, rest, form)?;
    Ok(LineRead::Call(counted_call(counted, n), expected))
}

fn counted_call(counted: Counted, n: u32) -> CallRead
    ensures { (l : List ℕ) → as_call l result ≡ counted_call counted n }
{
    match counted {
        Counted::Tick => CallRead::Tick(Ticks(n)),
        Counted::At => CallRead::At(Ticks(n)),
        Counted::Stretch => CallRead::Stretch(Ticks(n)),
        Counted::Quietest => CallRead::Quietest(n),
    }
}

pub(crate) fn bus_line(
    text: &[u8],
    rest: Span,
    expected: Option<Span>,
    numbers: &mut [u32],
) -> Result<LineRead, FaultRead>
    requires { Within text.now rest × (length numbers.old ≡ 512) }
    ensures { Says bus_line text.now rest expected numbers.new result }
{
    let word = next_in(text, rest);
    let start = word.start;
    let end = word.end;
    if end <= start {
        return bytes_line(text, rest, None, expected, numbers);
    }
    if is_out(&text[start..end]) {
        let bytes = Span {
            start: end,
            end: rest.end,
        };
        let n = size(&text[start..end]).ok_or(FaultRead::BadNumber(word))?;
        bytes_line(text, bytes, Some(n as usize), expected, numbers)
    } else {
        bytes_line(text, rest, None, expected, numbers)
    }
}

fn bytes_line(
    text: &[u8],
    rest: Span,
    output: Option<usize>,
    expected: Option<Span>,
    numbers: &mut [u32],
) -> Result<LineRead, FaultRead>
    requires { Within text.now rest × (length numbers.old ≡ 512) }
    ensures { Says (bytes_line (as_output output)) text.now rest expected numbers.new result }
{
    let form = Form {
        kind: Kind::Hex,
        least: 2,
        most: 2,
        slash: false,
    };
    let n = counted_numbers(text, rest, form, 0, 200, numbers)?;
    Ok(LineRead::Call(CallRead::Bus(output, n), expected))
}

// A word that begins with `out=`.
fn is_out(word: &[u8]) -> bool
    ensures { result ≡ is "out=" (take 4 word.now) }
{
    same(first_bytes(word, 4), b"out=")
}

// The number after `out=`.
fn size(word: &[u8]) -> Option<u32>
    ensures { result ≡ read_decimal 200 (drop 4 word.now) }
{
    numeral::read_decimal(bytes_from(word, 4), 200)
}

pub(crate) fn set_line(
    text: &[u8],
    rest: Span,
    expected: Option<Span>,
    numbers: &mut [u32],
) -> Result<LineRead, FaultRead>
    requires { Within text.now rest × (length numbers.old ≡ 512) }
    ensures { Says set_line text.now rest expected numbers.new result }
{
    let form = Form {
        kind: Kind::Hex,
        least: 1,
        most: 4,
        slash: false,
    };
    let (a, words) = address_in(text, rest, 0x30, 0x43)?;
    let n = counted_numbers(text, words, form, 1, 99, numbers)?;
    Ok(LineRead::Call(CallRead::Set(a, n), expected))
}

pub(crate) fn flight_line(
    text: &[u8],
    rest: Span,
    expected: Option<Span>,
    numbers: &mut [u32],
) -> Result<LineRead, FaultRead>
    requires { Within text.now rest × (length numbers.old ≡ 512) }
    ensures { Says flight_line text.now rest expected numbers.new result }
{
    let form = Form {
        kind: Kind::Hex,
        least: 1,
        most: 8,
        slash: true,
    };
    match numbers_in(text, rest, form, numbers) {
        Tally::Wrong(word) => Err(FaultRead::BadNumber(word)),
        Tally::All { count, slashes, up } => {
            if slashes != 1 {
                return Err(FaultRead::WrongCount);
            }
            if 16 < up {
                return Err(FaultRead::WrongCount);
            }
            let down = count.saturating_sub(up);
            if 16 < down {
                return Err(FaultRead::WrongCount);
            }
            Ok(LineRead::Call(CallRead::Flight(up, down), expected))
        }
    }
}

pub(crate) fn temperature_line(
    text: &[u8],
    rest: Span,
    expected: Option<Span>,
    numbers: &mut [u32],
) -> Result<LineRead, FaultRead>
    requires { Within text.now rest × (length numbers.old ≡ 512) }
    ensures { Says temperature_line text.now rest expected numbers.new result }
{
    let n = counted_numbers(text, rest, word_form(), 0, 16, numbers)?;
    Ok(LineRead::Call(CallRead::Temperature(n), expected))
}

// One to eight hexadecimal digits.
fn word_form() -> Form
    ensures { result ≡ word_form }
{
    Form {
        kind: Kind::Hex,
        least: 1,
        most: 8,
        slash: false,
    }
}

// No line has more numbers.
const EVERY: usize = 1000;

pub(crate) fn probe_line(
    text: &[u8],
    rest: Span,
    expected: Option<Span>,
    numbers: &mut [u32],
) -> Result<LineRead, FaultRead>
    requires { Within text.now rest × (length numbers.old ≡ 512) }
    ensures { Says probe_line text.now rest expected numbers.new result }
{
    let form = Form {
        kind: Kind::Count,
        least: 1,
        most: 8,
        slash: false,
    };
    let n = counted_numbers(text, rest, form, 1, EVERY, numbers)?;
    Ok(LineRead::Keep(KeepRead::Probe(n), expected))
}

pub(crate) fn record_line(
    text: &[u8],
    rest: Span,
    expected: Option<Span>,
    numbers: &mut [u32],
) -> Result<LineRead, FaultRead>
    requires { Within text.now rest × (length numbers.old ≡ 512) }
    ensures { Says record_line text.now rest expected numbers.new result }
{
    let form = Form {
        kind: Kind::Quanta,
        least: 1,
        most: 8,
        slash: false,
    };
    let n = counted_numbers(text, rest, form, 0, EVERY, numbers)?;
    Ok(LineRead::Keep(KeepRead::Differences(n), expected))
}

pub(crate) fn degrees_line(
    text: &[u8],
    rest: Span,
    expected: Option<Span>,
    numbers: &mut [u32],
) -> Result<LineRead, FaultRead>
    requires { Within text.now rest × (length numbers.old ≡ 512) }
    ensures { Says degrees_line text.now rest expected numbers.new result }
{
    let word = next_in(text, rest);
    let start = word.start;
    let end = word.end;
    if end <= start {
        return Err(FaultRead::WrongCount);
    }
    let a = number_in(&text[start..end], word_form()).ok_or(FaultRead::BadNumber(word))?;
    let other = Span {
        start: end,
        end: rest.end,
    };
    let b = one_number(text, other, word_form())?;
    store(numbers, 0, a);
    store(numbers, 1, b);
    Ok(LineRead::Call(CallRead::Degrees, expected))
}

pub(crate) fn listing_line(
    text: &[u8],
    rest: Span,
    expected: Option<Span>,
) -> Result<LineRead, FaultRead>
    requires { Within text.now rest }
    ensures { (l : List ℕ) → Says listing_line text.now rest expected l result }
{
    let word = next_in(text, rest);
    let start = word.start;
    let end = word.end;
    if end <= start {
        return Err(FaultRead::WrongCount);
    }
    if same(&text[start..end], b"old") {
        let other = Span {
            start: end,
            end: rest.end,
        };
        listing_of(text, other, expected, Width::Two)
    } else {
        listing_of(text, rest, expected, Width::Eight)
    }
}

fn listing_of(
    text: &[u8],
    rest: Span,
    expected: Option<Span>,
    width: Width,
) -> Result<LineRead, FaultRead>
    requires { Within text.now rest }
    ensures { (l : List ℕ) → Says (listing_of width) text.now rest expected l result }
{
    let c = one_number(text, rest, word_form())?;
    Ok(LineRead::Call(CallRead::Listing(width, c), expected))
}
