// A piece of a form.
ghost use Rattle.std.specs.Prelude.{◌≡◌, ◌-◌, get_or, drop};
ghost use Rattle.text.specs.Text.{text_where};
ghost use Rattle.text.specs.OwnPut.{Puts};
ghost use Rattle.item_page_form.specs.OwnForm.{Leads, plural_then, piece_then, takes as Form·takes};

use crate::pair::{pair_of, put_pair, put_port, put_result};

pub fn put_piece(buf: &mut [u8], at: usize, piece: &[u8], v: u32, w: u32) -> usize
    ensures { Leads buf.old at (piece_then piece.now v w) result buf.new }
{
    match byte(piece, 0) {
        b'#' => numeral::put_decimal(buf, at, u64::from(v)),
        b'$' | b'@' => numeral::put_hex(buf, at, 4, v),
        b'%' => numeral::put_hex(buf, at, 2, v),
        b'&' => put_plural(buf, at, v, bytes_from(piece, 1)),
        b'?' => put_where(buf, at, v == digit(piece), bytes_from(piece, 2)),
        b'<' => put_pair(buf, at, pair_of(v, w)),
        b'=' => {
            let a = put_pair(buf, at, pair_of(v, w));
            put_result(buf, a, pair_of(v, w))
        }
        b'>' => {
            let a = put_pair(buf, at, pair_of(v, w));
            put_port(buf, a, pair_of(v, w))
        }
        _ => numeral::put_text(buf, at, piece),
    }
}

// How many values a piece takes, by its first byte.
pub fn takes(c: u8) -> usize
    ensures { result ≡ Form·takes c }
{
    match c {
        b'#'..=b'&' | b'?' => 1,
        b'<'..=b'>' => 2,
        _ => 0,
    }
}

// The value at i, or 0.
pub fn value(values: &[u32], i: usize) -> u32
    ensures { result ≡ get_or values.now i 0 }
{
    values.get(i).copied().unwrap_or(0)
}

// The byte at i, or 0.
pub fn byte(piece: &[u8], i: usize) -> u8
    ensures { result ≡ get_or piece.now i 0 }
{
    piece.get(i).copied().unwrap_or(0)
}

// The digit in the second place.
fn digit(piece: &[u8]) -> u32
    ensures { result ≡ get_or piece.now 1 0 - 48 }
{
    u32::from(byte(piece, 1).saturating_sub(b'0'))
}

// The bytes from the place n on; none where it has fewer.
fn bytes_from(bytes: &[u8], n: usize) -> &[u8]
    ensures { result.now ≡ drop n bytes.now }
{
    &bytes[n.min(bytes.len())..]
}

fn put_plural(buf: &mut [u8], at: usize, n: u32, what: &[u8]) -> usize
    ensures { Leads buf.old at (plural_then n what.now) result buf.new }
{
    let a = numeral::put_decimal(buf, at, u64::from(n));
    let b = numeral::put_text(buf, a, what);
    put_where(buf, b, 1 < n, b"s")
}

fn put_where(buf: &mut [u8], at: usize, holds: bool, text: &[u8]) -> usize
    ensures { Puts buf.old at (text_where holds text.now) result buf.new }
{
    if holds {
        return numeral::put_text(buf, at, text);
    }
    at
}
