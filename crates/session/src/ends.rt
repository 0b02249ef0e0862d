// How a replay begins and ends.
ghost use Rattle.std.specs.Prelude.{true, ◌≡◌};
ghost use Rattle.session.specs.Ends.{names_begun, counts_begun, last_said, outcome_of};

use crate::flush::flush;
use collection::Outcome;
use item_state::counts::{BAD, CALLS, CHECK, DIFFER, EXPECTED, PATH, REFUSED, UNANNOUNCED, USED};

// The file's name, and whether it is a check.
pub fn begin(path: &[u8], check: bool, counts: &mut [usize; 22], names: &mut [u8])
    ensures { (names.new ≡ names_begun names.old path.now) × (counts.new ≡ counts_begun names.old path.now check counts.old) }
{
    counts[PATH] = numeral::put_text(names, 0, path);
    if check {
        counts[CHECK] = 1;
    }
}

// Writes the last line, and tells how the replay ended.
pub fn end(rt: &impl Print, whole: bool, counts: &mut [usize; 22], answers: &mut [u8]) -> Outcome
    ensures { result ≡ outcome_of whole counts.old }
{
    put_end(whole, counts, answers);
    flush(rt, answers, counts);
    outcome_of(whole, counts)
}

// The last line, where the input was read to its end.
fn put_end(whole: bool, counts: &mut [usize; 22], answers: &mut [u8])
    ensures { record { counts = counts.exit.now; answers = answers.new } ≡ last_said whole record { counts = counts.entry.now; answers = answers.old } }
{
    if whole {
        put_last(counts, answers);
    }
}

// A check has no last line.
fn put_last(counts: &mut [usize; 22], answers: &mut [u8])
    ensures { record { counts = counts.exit.now; answers = answers.new } ≡ last_said true record { counts = counts.entry.now; answers = answers.old } }
{
    if counts[CHECK] != 0 {
        return;
    }
    let a = phrase::end::put_calls(
        answers,
        counts[USED],
        counts[CALLS] as u64,
        counts[REFUSED] as u64,
        counts[UNANNOUNCED] as u64,
    );
    counts[USED] = phrase::end::put_faults(
        answers,
        a,
        counts[BAD] as u64,
        counts[EXPECTED] as u64,
        counts[DIFFER] as u64,
    );
}

// What the last line counts.
fn outcome_of(whole: bool, counts: &[usize; 22]) -> Outcome
    ensures { result ≡ outcome_of whole counts.now }
{
    Outcome {
        whole: whole,
        unannounced: counts[UNANNOUNCED],
        bad: counts[BAD],
        expected: counts[EXPECTED],
        differ: counts[DIFFER],
    }
}
