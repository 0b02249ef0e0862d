// A printed listing of differences: for each, a line with its capture number and its nanoseconds.
#![tactic(auto)]

ghost use Rattle.std.specs.Prelude.{◌≡◌, ◌≤◌};
ghost use Rattle.unit.specs.Says.{Says};
ghost use Rattle.listing.specs.Listing.{capture_digits, usual, listing, number_out, value_out};

mod line;
mod lines;

use crate::lines::REST;
use refusal::Refusal;

// How many hexadecimal digits a capture number has.
#[derive(Clone, Copy)]
pub enum Width {
    Two,
    Eight,
}

// Lists the differences, whose captures count up from `first`, in the first places of `out`, and answers how many bytes these
// take; a capture number has eight digits.
pub fn write_listing(differences: &[i32], first: u32, out: &mut [u8]) -> Result<usize, Refusal>
    ensures { Says number_out value_out record { answer = result; bytes = out.new } (listing (capture_digits usual) differences.now first out.old) }
{
    write_listing_as(Width::Eight, differences, first, out)
}

// Lists the differences as `write_listing` does, a capture number having as many digits as `width` names.
pub fn write_listing_as(
    width: Width,
    differences: &[i32],
    first: u32,
    out: &mut [u8],
) -> Result<usize, Refusal>
    ensures { Says number_out value_out record { answer = result; bytes = out.new } (listing (capture_digits width) differences.now first out.old) }
{
    write_digits(capture_digits(width), differences, first, out)
}

// A match by hand: `capture_digits` of specs/Listing names the numbers.
fn capture_digits(width: Width) -> usize
    ensures { (result ≡ capture_digits width) × (result ≤ 8) }
{
    match width {
        Width::Two => 2,
        Width::Eight => 8,
    }
}

fn write_digits(
    digits: usize,
    differences: &[i32],
    first: u32,
    out: &mut [u8],
) -> Result<usize, Refusal>
    requires { digits ≤ 8 }
    ensures { record { answer = result; bytes = out.new } ≡ listing digits differences.now first out.old }
{
    let count = differences.len();
    if lines::last_above(digits, first, count) {
        return Err(Refusal::LastCapture);
    }
    let size = count * (digits + REST);
    if out.len() < size {
        return Err(Refusal::ShortListing);
    }
    lines::put_lines(digits, differences, first, out);
    Ok(size)
}
