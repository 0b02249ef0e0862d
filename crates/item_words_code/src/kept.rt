// Differences and frames, and the counts of the last line.
ghost use Rattle.std.specs.Prelude.{map, ◌++◌};
ghost use Rattle.numeral.specs.Digit.{digits};
ghost use Rattle.numeral.specs.Print.{decimal};
ghost use Rattle.text.specs.Text.{spaced_each};
ghost use Rattle.text.specs.OwnPut.{Puts};
ghost use Rattle.item_answer.specs.Words.{quanta, frame_line};
ghost use Rattle.item_answer.specs.OwnView.{tally_of};
ghost use Rattle.item_replay.specs.Replay.{last_line};

use item_answer::Counts;

// A difference in decimal, with a minus where it is negative.
pub fn put_quanta(buf: &mut [u8], at: usize, difference: i32) -> usize
    ensures { Puts buf.old at (quanta difference) result buf.new }
{
    let n = u64::from(difference.unsigned_abs());
    if difference < 0 {
        let a = numeral::put_text(buf, at, b"-");
        return numeral::put_decimal(buf, a, n);
    }
    numeral::put_decimal(buf, at, n)
}

// `frame B ..`
pub fn put_frame(buf: &mut [u8], at: usize, bytes: &[u8]) -> usize
    ensures { Puts buf.old at (frame_line bytes.now) result buf.new }
{
    let next = numeral::put_text(buf, at, b"frame");
    put_bytes(buf, next, bytes)
}

// A blank and two digits for each byte.
fn put_bytes(buf: &mut [u8], at: usize, bytes: &[u8]) -> usize
    ensures { Puts buf.old at (spaced_each (map (digits 16 2) bytes.now)) result buf.new }
{
    let mut place = at;
    for byte in bytes {
        let blank = numeral::put_text(buf, place, b" ");
        place = numeral::put_hex(buf, blank, 2, u32::from(*byte));
    }
    place
}

// `end` and the counts.
pub fn put_last_line(buf: &mut [u8], at: usize, counts: Counts) -> usize
    ensures { Puts buf.old at (last_line (tally_of counts)) result buf.new }
{
    let a = numeral::put_text(buf, at, b"end ");
    let b = put_count(buf, a, counts.calls, b" calls, ");
    let c = put_count(buf, b, counts.refused, b" refused, ");
    let d = put_count(buf, c, counts.unannounced, b" unannounced, ");
    let e = put_count(buf, d, counts.bad, b" bad lines, ");
    let f = put_count(buf, e, counts.expectations, b" expectations, ");
    put_count(buf, f, counts.differ, b" differ")
}

// A count, and what it counts.
fn put_count(buf: &mut [u8], at: usize, n: u64, what: &[u8]) -> usize
    ensures { Puts buf.old at (decimal n ++ what.now) result buf.new }
{
    let a = numeral::put_decimal(buf, at, n);
    numeral::put_text(buf, a, what)
}
