// Lines that are no calls.
ghost use Rattle.std.specs.Prelude.{◌≡◌, map};
ghost use Rattle.text.specs.OwnPut.{Puts};
ghost use Rattle.item_line.specs.OwnRead.{as_fault};
ghost use Rattle.item_answer.specs.Words.{shown_byte, shown, fault_text, fault_line};

use item_line::FaultRead;

// `line L: ` and why; `text` is the line, of which a word may be named.
pub fn put_fault(buf: &mut [u8], at: usize, number: u64, text: &[u8], fault: FaultRead) -> usize
    ensures { Puts buf.old at (fault_line number (as_fault text.now fault)) result buf.new }
{
    let a = numeral::put_text(buf, at, b"line ");
    let b = numeral::put_decimal(buf, a, number);
    let c = numeral::put_text(buf, b, b": ");
    put_why(buf, c, text, fault)
}

fn put_why(buf: &mut [u8], at: usize, text: &[u8], fault: FaultRead) -> usize
    ensures { Puts buf.old at (fault_text (as_fault text.now fault)) result buf.new }
{
    match fault {
        FaultRead::TooLong => numeral::put_text(buf, at, b"too long"),
        FaultRead::UnknownWord(span) => {
            let a = numeral::put_text(buf, at, b"unknown word ");
            put_shown(buf, a, text_code::part_of(text, span))
        }
        FaultRead::BadNumber(span) => {
            let a = numeral::put_text(buf, at, b"bad number ");
            put_shown(buf, a, text_code::part_of(text, span))
        }
        FaultRead::WrongCount => numeral::put_text(buf, at, b"wrong count"),
        FaultRead::Past => numeral::put_text(buf, at, b"past"),
        FaultRead::NoRoom => numeral::put_text(buf, at, b"no room"),
    }
}

// The first 32 bytes of a word, and `..` where it has more.
fn put_shown(buf: &mut [u8], at: usize, word: &[u8]) -> usize
    ensures { Puts buf.old at (shown word.now) result buf.new }
{
    let next = put_shown_bytes(buf, at, text_code::first_bytes(word, 32));
    if 32 < word.len() {
        return numeral::put_text(buf, next, b"..");
    }
    next
}

fn put_shown_bytes(buf: &mut [u8], at: usize, bytes: &[u8]) -> usize
    ensures { Puts buf.old at (map shown_byte bytes.now) result buf.new }
{
    let mut place = at;
    for byte in bytes {
        place = numeral::put_text(buf, place, &[shown_byte(*byte)]);
    }
    place
}

// A byte that is no visible character is shown as a question mark.
fn shown_byte(c: u8) -> u8
    ensures { result ≡ shown_byte c }
{
    if c < 0x21 {
        return 0x3f;
    }
    if c <= 0x7e { c } else { 0x3f }
}
