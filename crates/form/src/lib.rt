// A form that is filled in with values and put into a lent buffer: a page's rows, with line feeds and all.
//
// A form is pieces, and a bar ends each. A piece is put as it stands, unless its first byte says otherwise:
//   #       a value in decimal
//   $       a value of 16 bits in hexadecimal, and six blanks
//   @       the same, and the next piece takes the same value
//   %       the last two hexadecimal digits of a value
//   &WHAT   a value in decimal and what it counts, with an s from two on
//   ?DTEXT  the text, where the value is the digit D
//   <       two values of 16 bits in hexadecimal
//   =       two values, and the time that they are as Int and Frac
//   >       two values, and the time that they are as those of a port
//
// No public function has a `requires`. Where the buffer has no room for a text, the answer is numeral::NO_ROOM.
#![tactic(auto)]

mod pair;
mod piece;

ghost use Rattle.form.specs.Form.{PutForm};

pub use pair::pair_of;
use piece::{byte, put_piece, takes};
pub use piece::{put_where, value};

pub fn put_form(buf: &mut [u8], at: usize, form: &[u8], values: &[u32]) -> usize
    ensures { PutForm buf.old at form.now values.now result buf.new }
{
    let mut place = at;
    let mut start = 0;
    let mut next = 0;
    for (i, c) in form.iter().enumerate() {
        if *c == b'|' {
            let piece = &form[start..i];
            place = put_piece(
                buf,
                place,
                piece,
                value(values, next),
                value(values, next + 1),
            );
            next += takes(byte(piece, 0));
            start = i + 1;
        }
    }
    place
}
