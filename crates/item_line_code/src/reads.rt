// What the words of a part come to: an address, a number, numbers that are stored.
ghost use Rattle.std.specs.Prelude.{◌≡◌, false, List, ℕ, length};
ghost use Rattle.item_line.specs.Reading.{alone as Reading·alone};
ghost use Rattle.item_line.specs.OwnRead.{as_line};
ghost use Rattle.item_line_code.specs.OwnNumbers.{Tallies};
ghost use Rattle.item_line_code.specs.OwnParts.{Within, words_in};
ghost use Rattle.item_line_code.specs.OwnReads.{WithinRest, Gives, OneRead, CountsRead, AddressedRead};

use crate::numbers::{number_in, tally};
use crate::parts::next_in;
use crate::{Form, Tally};
use item_line::{FaultRead, LineRead};
use text::Span;

// The numbers of a part.
pub(crate) fn numbers_in(text: &[u8], rest: Span, form: Form, numbers: &mut [u32]) -> Tally
    requires { Within text.now rest }
    ensures { Tallies form text.now (words_in text.now rest) numbers.old result numbers.new }
{
    let end = rest.end;
    tally(&text[..end], rest.start, form, numbers)
}

// `least` to `most` numbers.
pub(crate) fn counted_numbers(
    text: &[u8],
    rest: Span,
    form: Form,
    least: usize,
    most: usize,
    numbers: &mut [u32],
) -> Result<usize, FaultRead>
    requires { Within text.now rest × (length numbers.old ≡ 512) × (form.slash ≡ false) }
    ensures { CountsRead form least most text.now rest numbers.new result }
{
    match numbers_in(text, rest, form, numbers) {
        Tally::Wrong(word) => Err(FaultRead::BadNumber(word)),
        Tally::All {
            count,
            slashes: _,
            up: _,
        } => {
            if count < least {
                return Err(FaultRead::WrongCount);
            }
            if most < count {
                return Err(FaultRead::WrongCount);
            }
            Ok(count)
        }
    }
}

// One number and no further word.
pub(crate) fn one_number(text: &[u8], rest: Span, form: Form) -> Result<u32, FaultRead>
    requires { Within text.now rest }
    ensures { OneRead form text.now rest result }
{
    let word = next_in(text, rest);
    let start = word.start;
    let end = word.end;
    if end <= start {
        return Err(FaultRead::WrongCount);
    }
    let v = number_in(&text[start..end], form).ok_or(FaultRead::BadNumber(word))?;
    let more = next_in(
        text,
        Span {
            start: end,
            end: rest.end,
        },
    );
    if more.end <= more.start {
        Ok(v)
    } else {
        Err(FaultRead::WrongCount)
    }
}

// A line that has no further word.
pub(crate) fn alone(text: &[u8], rest: Span, line: LineRead) -> Result<LineRead, FaultRead>
    requires { Within text.now rest }
    ensures { (l : List ℕ) → Gives (Reading·alone (as_line text.now l line)) text.now rest l result }
{
    let word = next_in(text, rest);
    if word.end <= word.start {
        Ok(line)
    } else {
        Err(FaultRead::WrongCount)
    }
}

// An address from `low` to `high`.
pub(crate) fn address_in(
    text: &[u8],
    rest: Span,
    low: u32,
    high: u32,
) -> Result<(u32, Span), FaultRead>
    requires { Within text.now rest }
    ensures addressed_read { AddressedRead low high text.now rest result }
    ensures within { WithinRest text.now result }
{
    let word = next_in(text, rest);
    let start = word.start;
    let end = word.end;
    if end <= start {
        return Err(FaultRead::WrongCount);
    }
    let a = numeral::read_hex(&text[start..end], 2, 2).ok_or(FaultRead::BadNumber(word))?;
    if a < low {
        return Err(FaultRead::BadNumber(word));
    }
    if high < a {
        return Err(FaultRead::BadNumber(word));
    }
    let words = Span {
        start: end,
        end: rest.end,
    };
    Ok((a, words))
}
