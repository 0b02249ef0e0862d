// Answers are written, between two turns of a replay.
ghost use Rattle.std.specs.Prelude.{◌≡◌};
ghost use Rattle.session.specs.Flush.{is_long, written_to, written_now, kept_to, after_writing};

use item_state::counts::{BODY, CHECK, LEFT, USED, WRITTEN, more};
use item_state::output::{bytes_from, first_bytes};

// An answer in parts that has grown past so many bytes is written before it ends. Its first KEPT bytes, more than a line can expect,
// stay in the buffer.
const LONG: usize = 16384;

const KEPT: usize = 2048;

// Writes the answers. Of a line that is under way the start stays in the buffer. What can't be written is passed over: the replay goes on,
// and whoever misses its last line knows that it broke off.
pub fn flush(rt: &impl Print, answers: &[u8], counts: &mut [usize; 22])
    ensures { counts.new ≡ after_writing counts.old }
{
    let _ = rt.write_all(written_now(answers, counts));
    count_written(counts);
}

// What is to be written now.
fn written_now<'a>(answers: &'a [u8], counts: &[usize; 22]) -> &'a [u8]
    ensures { result.now ≡ written_now record { counts = counts.entry.now; answers = answers.now } }
{
    bytes_from(first_bytes(answers, written_to(counts)), counts[WRITTEN])
}

fn written_to(counts: &[usize; 22]) -> usize
    ensures { result ≡ written_to counts.now }
{
    if counts[LEFT] == 0 {
        return counts[USED];
    }
    if is_long(counts) {
        return counts[USED];
    }
    counts[WRITTEN]
}

// Whether the answer of a line that is under way is written before it ends. A check keeps it short.
fn is_long(counts: &[usize; 22]) -> bool
    ensures { result ≡ is_long counts.now }
{
    if counts[CHECK] == 0 {
        return more(counts[BODY], LONG) < counts[USED];
    }
    false
}

fn kept_to(counts: &[usize; 22]) -> usize
    ensures { result ≡ kept_to counts.now }
{
    more(counts[BODY], KEPT)
}

// The counts, once that is written.
fn count_written(counts: &mut [usize; 22])
    ensures { counts.new ≡ after_writing counts.old }
{
    if counts[LEFT] == 0 {
        counts[USED] = 0;
        counts[WRITTEN] = 0;
        return;
    }
    if is_long(counts) {
        let kept = kept_to(counts);
        counts[USED] = kept;
        counts[WRITTEN] = kept;
    }
}
