// A piece of a form.
ghost use Rattle.std.specs.Prelude.{◌≡◌, ◌-◌, [], ◌∷◌, get_or};
ghost use Rattle.numeral.specs.Digit.{digits};
ghost use Rattle.numeral.specs.Ascii.{ascii};
ghost use Rattle.wording.specs.Text.{PutEach};
ghost use Rattle.wording.specs.Wording.{reported_where};
ghost use Rattle.form.specs.Form.{piece_texts, register_texts, plural_texts, takes as Form·takes};

use crate::pair::{pair_of, put_pair, put_port, put_result};
use item_state::output::bytes_from;

pub fn put_piece(buf: &mut [u8], at: usize, piece: &[u8], v: u32, w: u32) -> usize
    ensures { PutEach buf.old at (piece_texts piece.now v w) result buf.new }
{
    match byte(piece, 0) {
        b'#' => numeral::put_decimal(buf, at, v as u64),
        b'$' => put_register(buf, at, v),
        b'%' => numeral::put_hex(buf, at, 2, v),
        b'&' => put_plural(buf, at, v, bytes_from(piece, 1)),
        b'?' => put_where(buf, at, v == digit(piece), bytes_from(piece, 2)),
        b'@' => put_register(buf, at, v),
        b'<' => put_pair(buf, at, pair_of(v, w)),
        b'=' => put_result(buf, at, pair_of(v, w)),
        b'>' => put_port(buf, at, pair_of(v, w)),
        _ => numeral::put_text(buf, at, piece),
    }
}

// How many values a piece takes, by its first byte.
pub fn takes(c: u8) -> usize
    ensures { result ≡ Form·takes c }
{
    match c {
        b'#'..=b'&' | b'?' => 1,
        b'<'..=b'>' => 2,
        _ => 0,
    }
}

// The value at i, or 0.
pub fn value(values: &[u32], i: usize) -> u32
    ensures { result ≡ get_or values.now i 0 }
{
    values.get(i).copied().unwrap_or(0)
}

// The byte at i, or 0.
pub fn byte(piece: &[u8], i: usize) -> u8
    ensures { result ≡ get_or piece.now i 0 }
{
    piece.get(i).copied().unwrap_or(0)
}

// The digit in the second place.
fn digit(piece: &[u8]) -> u32
    ensures { result ≡ get_or piece.now 1 0 - 48 }
{
    u32::from(byte(piece, 1).saturating_sub(b'0'))
}

fn put_register(buf: &mut [u8], at: usize, v: u32) -> usize
    ensures { PutEach buf.old at (register_texts v) result buf.new }
{
    let a = numeral::put_hex(buf, at, 4, v);
    numeral::put_text(buf, a, b"      ")
}

fn put_plural(buf: &mut [u8], at: usize, n: u32, what: &[u8]) -> usize
    ensures { PutEach buf.old at (plural_texts n what.now) result buf.new }
{
    let a = numeral::put_decimal(buf, at, n as u64);
    let b = numeral::put_text(buf, a, what);
    if n < 2 {
        return b;
    }
    numeral::put_text(buf, b, b"s")
}

// A text where a test holds.
pub fn put_where(buf: &mut [u8], at: usize, holds: bool, text: &[u8]) -> usize
    ensures { PutEach buf.old at (reported_where holds text.now) result buf.new }
{
    if holds {
        return numeral::put_text(buf, at, text);
    }
    at
}
