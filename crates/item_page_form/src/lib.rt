// A form that is filled in with values and put into a lent buffer. A form is pieces, and a bar ends each. A piece is put as it stands, unless
// its first byte says otherwise. One value: # in decimal, % and $ its last two and four hexadecimal digits (@ as $, for the next piece too),
// &WHAT in decimal with what it counts and an s from two on, ?DTEXT the text where the value is the digit D. Two values as Int and Frac:
// < both words, = with their time, > with that of a port.
#![tactic(auto)]

mod pair;
mod piece;

ghost use Rattle.std.specs.Prelude.{[], ◌≤◌};
ghost use Rattle.item_page_form.specs.OwnForm.{Leads, filled};

pub use pair::{pair_of, put_signed_time};
pub use piece::value;
use piece::{byte, put_piece, takes};

// The form with the values from the place `first` on.
pub fn put_form(buf: &mut [u8], at: usize, form: &[u8], values: &[u32], first: usize) -> usize
    requires { first ≤ 255 }
    ensures { Leads buf.old at (filled [] form.now values.now first) result buf.new }
{
    let mut place = at;
    let mut start = 0;
    let mut next = first;
    for (i, c) in form.iter().enumerate() {
        if *c == b'|' {
            let piece = &form[start..i];
            place = put_piece(
                buf,
                place,
                piece,
                value(values, next),
                value(values, next + 1),
            );
            next += takes(byte(piece, 0));
            start = i + 1;
        }
    }
    place
}
