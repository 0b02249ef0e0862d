// Words that are wanted of registers.
ghost use Rattle.std.specs.Prelude.{◌≡◌, List, ℕ, ◌-◌, ltb, Ok, Err};
ghost use Rattle.unit.specs.Choice.{pick};
ghost use Rattle.item_line.specs.Reading.{is_digit, are_digits, is_wanted, wanted_line};
ghost use Rattle.item_line.specs.declared.FaultRead.TheVariants.{WrongCount};
ghost use Rattle.item_line_code.specs.OwnParts.{Within};
ghost use Rattle.item_line_code.specs.OwnReads.{wanted_of, Gives, WantedRead};

use crate::parts::next_in;
use crate::reads::address_in;
use item_line::{FaultRead, LineRead};
use numeral::hex_digit;
use text::Span;
use text_code::{first_bytes, same};

// A `read` line or an `expect` line.
pub(crate) fn wanted_line(text: &[u8], rest: Span, reads: bool) -> Result<LineRead, FaultRead>
    requires { Within text.now rest }
    ensures { (l : List ℕ) → Gives (wanted_line (wanted_of reads)) text.now rest l result }
{
    let (a, words) = address_in(text, rest, 0xB0, 0xFF)?;
    wanted_words(text, words, most_from(a))?;
    Ok(if reads {
        LineRead::Read(a, words)
    } else {
        LineRead::Expect(a, words)
    })
}

// As many words as there are registers from an address on.
fn most_from(a: u32) -> usize
    ensures { result ≡ 256 - a }
{
    if a < 256 { (256 - a) as usize } else { 0 }
}

// One to `most` words that are wanted; no more are judged.
fn wanted_words(text: &[u8], rest: Span, most: usize) -> Result<usize, FaultRead>
    requires { Within text.now rest }
    ensures { WantedRead most text.now rest result }
{
    let end = rest.end;
    let mut i = rest.start;
    let mut count: usize = 0;
    // A while: it goes from word to word, and a fault names a word by its place.
    while i < end {
        let word = next_in(text, Span { start: i, end });
        let from = word.start;
        let to = word.end;
        if to <= from {
            return some_of(count);
        }
        if most <= count {
            return Err(FaultRead::WrongCount);
        }
        if is_wanted(&text[from..to]) {
            count += 1;
            i = to;
        } else {
            return Err(FaultRead::BadNumber(word));
        }
    }
    some_of(count)
}

fn some_of(count: usize) -> Result<usize, FaultRead>
    ensures { result ≡ pick (ltb count 1) (Err WrongCount) (Ok count) }
{
    if count < 1 {
        Err(FaultRead::WrongCount)
    } else {
        Ok(count)
    }
}

// One to four digits, each hexadecimal or x, that do not begin with `0x`.
fn is_wanted(word: &[u8]) -> bool
    ensures { result ≡ is_wanted word.now }
{
    if word.len() < 1 {
        return false;
    }
    if 4 < word.len() {
        return false;
    }
    are_digits(word) && !same(first_bytes(word, 2), b"0x")
}

fn are_digits(word: &[u8]) -> bool
    ensures { result ≡ are_digits word.now }
{
    word.iter().all(|c| is_digit(*c))
}

fn is_digit(c: u8) -> bool
    ensures { result ≡ is_digit c }
{
    c == b'x' || hex_digit(c).is_some()
}
