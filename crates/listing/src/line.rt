// One line: the capture number, the sign and the nanoseconds.
ghost use Rattle.std.specs.Prelude.{◌≡◌, [], ◌∷◌, ◌+◌, ◌≤◌, length};
ghost use Rattle.numeral.specs.Place.{overwrite, Put};
ghost use Rattle.numeral.specs.Print.{nanoseconds};
ghost use Rattle.listing.specs.Listing.{right_justified, sign, line, line_length};

// The places of a time, and twice as many: where it is put before it is moved to the right.
const PLACES: usize = 12;

const FIELD: usize = 24;

// A blank and the sign.
fn put_sign(out: &mut [u8], at: usize, difference: i32) -> usize
    ensures { Put out.old at (32 ∷ sign difference ∷ []) result out.new }
{
    if difference < 0 {
        numeral::put_text(out, at, b" -")
    } else {
        numeral::put_text(out, at, b"  ")
    }
}

// Nanoseconds right-justified in 12 places, which the largest magnitude of a difference fills.
fn put_time(out: &mut [u8], at: usize, quanta: u32) -> usize
    requires { quanta ≤ 2147483648 }
    ensures { Put out.old at (right_justified 12 (nanoseconds quanta)) result out.new }
{
    let mut field = [b' '; FIELD];
    let end = numeral::put_nanoseconds(&mut field, PLACES, quanta);
    let start = end - PLACES;
    numeral::put_text(out, at, &field[start..end])
}

pub fn put_line(out: &mut [u8], at: usize, digits: usize, capture: u32, difference: i32)
    requires { at + line_length digits ≤ length out.old }
    ensures { out.new ≡ overwrite out.old at (line digits capture difference) }
{
    let number = numeral::put_hex(out, at, digits, capture);
    let signed = put_sign(out, number, difference);
    let time = put_time(out, signed, difference.unsigned_abs());
    numeral::put_text(out, time, b"\n");
}
