// Degrees, quiet runs, nanoseconds and listings: calls beside the model.
#![tactic(auto)]

ghost use Rattle.std.specs.Prelude.{◌≡◌};
ghost use Rattle.thermometer.specs.Table.{pt1000};
ghost use Rattle.thermometer.specs.Degrees.{degrees_over, degrees_by};
ghost use Rattle.quietest.specs.Quietest.{quietest_place};
ghost use Rattle.refusal.specs.Number.{number_told, value_told};
ghost use Rattle.nanosecond.specs.Nanosecond.{Nanoseconds};
ghost use Rattle.listing.specs.Listing.{capture_digits, usual};
ghost use Rattle.layout.specs.Code.{Gives, code_in, filled};
ghost use Rattle.finding.specs.Finding.{place_run};
ghost use Rattle.max35101_analysis.specs.Listed.{listed_number, listed_out, listed_sizes};

use finding::{copy_run, told};
use listing::{Width, write_listing, write_listing_as};
use nanosecond::nanoseconds;
use outcome::ACCEPTED;
use quietest::quietest_place;
use thermometer::{degrees, degrees_by};

// Thousandths of a degree of a PT1000 probe, from its word and the word of its reference.
#[unsafe(no_mangle)]
pub extern "C" fn max35101_degrees(probe: u32, reference: u32, answer: &mut [u32]) -> u32
    ensures { Gives number_told value_told (degrees_over pt1000 probe reference) answer.old result answer.new }
{
    told(degrees(probe, reference), answer)
}

// The same with a table of milliohms at each whole degree from 0.
#[unsafe(no_mangle)]
pub extern "C" fn max35101_degrees_by(
    table: &[u32],
    probe: u32,
    reference: u32,
    answer: &mut [u32],
) -> u32
    ensures { Gives number_told value_told (degrees_by table.now probe reference) answer.old result answer.new }
{
    told(degrees_by(table, probe, reference), answer)
}

// The place of the quietest run of `width` neighbours, the earliest among equals.
#[unsafe(no_mangle)]
pub extern "C" fn max35101_quietest_place(values: &[i32], width: usize, answer: &mut [usize]) -> u32
    ensures { Gives number_told value_told (quietest_place values.now width) answer.old result answer.new }
{
    told(quietest_place(values, width), answer)
}

// The values of that run.
#[unsafe(no_mangle)]
pub extern "C" fn max35101_quietest(values: &[i32], width: usize, run: &mut [i32]) -> u32
    ensures { (result ≡ code_in (number_told (quietest_place values.now width))) × (run.new ≡ filled run.old (place_run (quietest_place values.now width) values.now width)) }
{
    let p = quietest_place(values, width);
    match p {
        Ok(start) => {
            copy_run(values, start, width, run);
            ACCEPTED
        }
        Err(refusal) => refusal.number(),
    }
}

// A difference in nanoseconds, with no rounding.
#[unsafe(no_mangle)]
pub extern "C" fn max35101_nanoseconds(quanta: i32) -> f64
    ensures { Nanoseconds quanta result }
{
    nanoseconds(quanta)
}

// The differences as printed lines, whose capture numbers have eight digits. The answer's size: how many bytes were written.
#[unsafe(no_mangle)]
pub extern "C" fn max35101_write_listing(
    differences: &[i32],
    first: u32,
    out: &mut [u8],
    answer: &mut [usize],
) -> u32
    ensures { (result ≡ listed_number (capture_digits usual) differences.now first out.old) × (out.new ≡ listed_out (capture_digits usual) differences.now first out.old) × (answer.new ≡ listed_sizes (capture_digits usual) differences.now first out.old answer.old) }
{
    let l = write_listing(differences, first, out);
    told(l, answer)
}

// The count of digits and number 22 are numbers: the C interface.
// The same with two digits or eight; number 22 for another count.
#[unsafe(no_mangle)]
pub extern "C" fn max35101_write_listing_as(
    digits: u32,
    differences: &[i32],
    first: u32,
    out: &mut [u8],
    answer: &mut [usize],
) -> u32
    ensures { (result ≡ listed_number digits differences.now first out.old) × (out.new ≡ listed_out digits differences.now first out.old) × (answer.new ≡ listed_sizes digits differences.now first out.old answer.old) }
{
    if digits == 2 {
        let l = write_listing_as(Width::Two, differences, first, out);
        return told(l, answer);
    }
    if digits == 8 {
        let l = write_listing_as(Width::Eight, differences, first, out);
        return told(l, answer);
    }
    22
}
