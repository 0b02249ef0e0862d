// The words with which answers begin, and answers that are few words.
ghost use Rattle.std.specs.Prelude.{[], ◌∷◌};
ghost use Rattle.refusal.specs.Number.{number};
ghost use Rattle.wording.specs.Text.{PutEach};
ghost use Rattle.wording.specs.Wording.{line_feed, numbered, tick_head, at_head, stretch, flight_kind, temperature_kind, delivery, place, expected, left_out, item_name};
ghost use Rattle.wording.specs.Wording.{degrees_refused, listing_head, listing_refused, quietest_refused};

use crate::delivery::put_delivery;
use crate::end::put_count;
use crate::kept::put_refused;
use device::Answer;
use refusal::Refusal;
use unit::Ticks;

// `tick N`
pub fn put_tick(out: &mut [u8], at: usize, n: Ticks) -> usize
    ensures { PutEach out.old at (tick_head n.0) result out.new }
{
    put_number(out, at, b"tick ", n.0)
}

// `at T`
pub fn put_at(out: &mut [u8], at: usize, t: Ticks) -> usize
    ensures { PutEach out.old at (at_head t.0) result out.new }
{
    put_number(out, at, b"at ", t.0)
}

fn put_number(out: &mut [u8], at: usize, word: &[u8], n: u32) -> usize
    ensures { PutEach out.old at (numbered word.now n) result out.new }
{
    let a = numeral::put_text(out, at, word);
    numeral::put_decimal(out, a, n as u64)
}

// `stretch` and what it reports, or its refusal.
pub fn put_stretch(out: &mut [u8], at: usize, answer: Answer, n: Ticks) -> usize
    ensures { PutEach out.old at (stretch answer n.0) result out.new }
{
    let a = numeral::put_text(out, at, b"stretch");
    let b = crate::ticks::put_stretched(out, a, answer, n);
    numeral::put_text(out, b, b"\n")
}

pub fn put_flight(out: &mut [u8], at: usize, answer: Answer) -> usize
    ensures { PutEach out.old at (delivery flight_kind answer) result out.new }
{
    put_delivery(out, at, b"flight", answer)
}

pub fn put_temperature(out: &mut [u8], at: usize, answer: Answer) -> usize
    ensures { PutEach out.old at (delivery temperature_kind answer) result out.new }
{
    put_delivery(out, at, b"temperature", answer)
}

// `listing N`, before its lines
pub fn put_listing(out: &mut [u8], at: usize, n: u64) -> usize
    ensures { PutEach out.old at (listing_head n) result out.new }
{
    let a = numeral::put_text(out, at, b"listing ");
    put_count(out, a, n, b"\n")
}

pub fn put_degrees_refused(out: &mut [u8], at: usize, refusal: Refusal) -> usize
    ensures { PutEach out.old at (degrees_refused (number refusal)) result out.new }
{
    put_refused(out, at, b"degrees", refusal)
}

pub fn put_listing_refused(out: &mut [u8], at: usize, refusal: Refusal) -> usize
    ensures { PutEach out.old at (listing_refused (number refusal)) result out.new }
{
    put_refused(out, at, b"listing", refusal)
}

pub fn put_quietest_refused(out: &mut [u8], at: usize, refusal: Refusal) -> usize
    ensures { PutEach out.old at (quietest_refused (number refusal)) result out.new }
{
    put_refused(out, at, b"quietest", refusal)
}

// The end of a line.
pub fn put_end(out: &mut [u8], at: usize) -> usize
    ensures { PutEach out.old at (line_feed ∷ []) result out.new }
{
    numeral::put_text(out, at, b"\n")
}

// `FILE:LINE: `
pub fn put_place(out: &mut [u8], at: usize, file: &[u8], line: u64) -> usize
    ensures { PutEach out.old at (place file.now line) result out.new }
{
    let a = numeral::put_text(out, at, file);
    let b = numeral::put_text(out, a, b":");
    put_count(out, b, line, b": ")
}

// ` expected WORDS`
pub fn put_expected(out: &mut [u8], at: usize, words: &[u8]) -> usize
    ensures { PutEach out.old at (expected words.now) result out.new }
{
    let a = numeral::put_text(out, at, b" expected ");
    numeral::put_text(out, a, words)
}

// ` ..`, for the rest of an answer
pub fn put_left_out(out: &mut [u8], at: usize) -> usize
    ensures { PutEach out.old at left_out result out.new }
{
    numeral::put_text(out, at, b" ..")
}

// ` (NAME)`, the item's, at a line's end
pub fn put_name(out: &mut [u8], at: usize, name: &[u8]) -> usize
    ensures { PutEach out.old at (item_name name.now) result out.new }
{
    let a = numeral::put_text(out, at, b" (");
    let b = numeral::put_text(out, a, name);
    numeral::put_text(out, b, b")\n")
}
