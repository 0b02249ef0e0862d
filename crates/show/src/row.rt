// What rows share.
ghost use Rattle.std.specs.Prelude.{◌≡◌, [], ◌∷◌};
ghost use Rattle.wording.specs.Text.{PutEach};
ghost use Rattle.item_state.specs.Told.{read_word};
ghost use Rattle.page.specs.Row.{ended, plural, binary};
ghost use Rattle.show.specs.Words.{page_words};

use device::Model;
use item_state::told::value;

// The word that a read of one register would give.
pub fn word(m: Model, a: u32) -> u32
    ensures { result ≡ read_word m a }
{
    value(question::peek(m, a))
}

// The words of B0h to FFh.
pub fn page_words(m: Model) -> [u32; 80]
    ensures { result ≡ page_words m }
{
    let mut words = [0u32; 80];
    for i in 0..80 {
        words[i] = word(m, 0xb0 + i as u32);
    }
    words
}

// A row of one text.
pub fn put_line(buf: &mut [u8], at: usize, text: &[u8]) -> usize
    ensures { PutEach buf.old at (ended (text.now ∷ [])) result buf.new }
{
    let a = numeral::put_text(buf, at, text);
    numeral::put_text(buf, a, b"\n")
}

// A number, and what it counts, with an s from two on.
pub fn put_plural(buf: &mut [u8], at: usize, n: u32, what: &[u8]) -> usize
    ensures { PutEach buf.old at (plural n what.now) result buf.new }
{
    let a = numeral::put_decimal(buf, at, n as u64);
    let b = numeral::put_text(buf, a, what);
    if n < 2 {
        return b;
    }
    numeral::put_text(buf, b, b"s")
}

// A field of two bits.
pub fn put_binary(buf: &mut [u8], at: usize, v: u32) -> usize
    ensures { PutEach buf.old at (binary v) result buf.new }
{
    let a = numeral::put_decimal(buf, at, (v / 2) as u64);
    let b = numeral::put_decimal(buf, a, (v % 2) as u64);
    numeral::put_text(buf, b, b"b")
}
