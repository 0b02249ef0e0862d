// The lines of a list of differences.
ghost use Rattle.std.specs.Prelude.{◌≡◌, false, ◌*◌, ◌^◌, ◌≤◌, length};
ghost use Rattle.numeral.specs.Place.{overwrite};
ghost use Rattle.listing.specs.Listing.{line_length, last_above, lines};

use crate::line::put_line;

// The bytes of a line past its capture number: a blank, the sign, 12 places and the line feed.
pub const REST: usize = 15;

// How many numbers have at most so many hexadecimal digits.
fn numbers_of(digits: usize) -> u64
    requires { digits ≤ 8 }
    ensures { (result ≡ 16 ^ digits) × (result ≤ 4294967296) }
{
    1 << (4 * digits)
}

// Whether the last of `count` captures from `first` on has more digits.
pub fn last_above(digits: usize, first: u32, count: usize) -> bool
    requires { digits ≤ 8 }
    ensures { result ≡ last_above digits first count }
{
    if count == 0 {
        return false;
    }
    let numbers = numbers_of(digits);
    let first = u64::from(first);
    if numbers <= first {
        return true;
    }
    numbers - first < count as u64
}

// Puts them into the places from 0 on.
pub fn put_lines(digits: usize, differences: &[i32], first: u32, out: &mut [u8])
    requires digits_bound { digits ≤ 8 }
    requires differences_value { last_above digits first (length differences.now) ≡ false }
    requires digits_in_bounds { length differences.now * line_length digits ≤ length out.old }
    ensures { (out.new ≡ overwrite out.old 0 (lines digits first differences.now)) × (length (lines digits first differences.now) ≡ length differences.now * line_length digits) }
{
    let mut at = 0;
    for (i, difference) in differences.iter().enumerate() {
        let capture = first + i as u32;
        put_line(out, at, digits, capture, *difference);
        at += digits + REST;
    }
}
