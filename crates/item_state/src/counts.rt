// What a replay counts, in an array that its caller lends.
ghost use Rattle.std.specs.Prelude.{◌≡◌, ◌+◌, min};
ghost use Rattle.item_state.specs.Log.{refusals as Log·refusals, counted};

use device::Answer;

// The places of the counts. Bytes of answers that are not written yet.
pub const USED: usize = 0;
// Lines that were read. Place 1 is not used.
pub const LINES: usize = 2;
// For the last line: calls, those refused, those of them not announced, bad lines, what was
// expected, and what of it differs.
pub const CALLS: usize = 3;

pub const REFUSED: usize = 4;

pub const UNANNOUNCED: usize = 5;

pub const BAD: usize = 6;

pub const EXPECTED: usize = 7;

pub const DIFFER: usize = 8;

// Ticks since the last transaction that started a measurement, or since the item's start.
pub const MOMENT: usize = 9;

// Differences in the item's record, and entries of its probe table.
pub const RECORD: usize = 10;

pub const PROBES: usize = 11;

// Where what is written of the line starts, and the place up to which answers were written before it
// ended.
pub const START: usize = 12;

pub const WRITTEN: usize = 13;

// 1 where only what needs a look is written.
pub const CHECK: usize = 14;

// Bytes of the item's name, and of the file's.
pub const NAME: usize = 15;

pub const PATH: usize = 16;

// What the counts were before the line: refused, bad, and all that needs a look.
pub const OLD_REFUSED: usize = 17;

pub const OLD_BAD: usize = 18;

pub const OLD_TROUBLE: usize = 19;

// Where the line's answer starts, behind its head in a check.
pub const BODY: usize = 20;

// Ticks of the line that are still to run: a long line of ticks is answered in parts. 0 where no line is under way.
pub const LEFT: usize = 21;

// The record and the probe table have so many places.
pub const RECORD_PLACES: usize = 4096;

pub const PROBE_PLACES: usize = 1024;

// n + k, or the largest number that fits.
pub fn more(n: usize, k: usize) -> usize
    ensures { result ≡ min (n + k) 18446744073709551615 }
{
    n.saturating_add(k)
}

// 1 for a refusal.
pub fn refusals(answer: Answer) -> usize
    ensures { result ≡ Log·refusals answer }
{
    match answer {
        Answer::Refused(_) => 1,
        _ => 0,
    }
}

// After a call with this answer, when `used` bytes of answers are not written yet.
pub fn count_call(counts: &mut [usize; 22], answer: Answer, used: usize)
    ensures { counts.new ≡ counted counts.old (Log·refusals answer) used }
{
    count(counts, refusals(answer), used);
}

// After a call that was refused where `refused` is 1.
pub fn count(counts: &mut [usize; 22], refused: usize, used: usize)
    ensures { counts.new ≡ counted counts.old refused used }
{
    counts[CALLS] = more(counts[CALLS], 1);
    counts[REFUSED] = more(counts[REFUSED], refused);
    counts[USED] = used;
}
