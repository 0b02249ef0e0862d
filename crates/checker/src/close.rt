// After a line's answer: what the line expects, and what needs a look.
ghost use Rattle.std.specs.Prelude.{◌≡◌, ◌++◌, ◌+◌, ◌≤◌, min, length, take, drop};
ghost use Rattle.item_checks.specs.Close.{answer, place_of, first_end, starts_with, begins_with, wanted_in, inserted, compared, judged_log, is_announced, refusal_counted, trouble as Close·trouble, shortened, looked, closed, expected_from, cut_off, kept_briefly};

use item_state::counts::{
    BAD, BODY, CHECK, DIFFER, EXPECTED, NAME, OLD_BAD, OLD_REFUSED, OLD_TROUBLE, REFUSED, START,
    UNANNOUNCED, USED, more,
};
use item_state::output::{bytes_from, first_bytes};

// The item's name stands behind the longest path.
pub const NAME_PLACE: usize = 4096;

// More bytes of what a line expects are not looked at.
const WANTED: usize = 1024;

// What needs a look.
pub fn trouble(counts: &[usize; 22]) -> usize
    ensures { result ≡ Close·trouble counts.now }
{
    more(more(counts[BAD], counts[DIFFER]), counts[UNANNOUNCED])
}

// In a check no more is kept of an answer.
const SHOWN: usize = 2051;

// Of a longer one so many bytes are, and ` ..`.
const KEPT: usize = 2048;

// Behind a part of an answer, in a check: of a long one its first bytes are kept.
pub fn shorten(counts: &mut [usize; 22], answers: &mut [u8])
    ensures { record { counts = counts.exit.now; answers = answers.new } ≡ kept_briefly record { counts = counts.entry.now; answers = answers.old } }
{
    if counts[CHECK] == 0 {
        return;
    }
    if counts[USED] <= more(counts[BODY], SHOWN) {
        return;
    }
    cut_off(counts, answers);
}

fn cut_off(counts: &mut [usize; 22], answers: &mut [u8])
    ensures { record { counts = counts.exit.now; answers = answers.new } ≡ cut_off record { counts = counts.entry.now; answers = answers.old } }
{
    let kept = more(counts[BODY], KEPT);
    counts[USED] = phrase::heads::put_left_out(answers, kept);
}

// The line is answered; what it expects stands from the place `expected` on, if that is not 0.
pub fn close(
    text: &[u8],
    expected: usize,
    counts: &mut [usize; 22],
    names: &[u8],
    answers: &mut [u8],
)
    ensures { record { counts = counts.exit.now; answers = answers.new } ≡ closed (expected_from text.now expected) names.now record { counts = counts.entry.now; answers = answers.old } }
{
    let announced = judged(text, expected, counts, answers);
    count_unannounced(counts, announced);
    if counts[CHECK] == 0 {
        return;
    }
    keep_trouble(counts, names, answers);
}

fn count_unannounced(counts: &mut [usize; 22], announced: bool)
    ensures { counts.new ≡ refusal_counted announced counts.old }
{
    if announced {
        return;
    }
    if counts[REFUSED] == counts[OLD_REFUSED] {
        return;
    }
    counts[UNANNOUNCED] = more(counts[UNANNOUNCED], 1);
}

// Whether the answer is one that the line expects.
fn judged(text: &[u8], expected: usize, counts: &mut [usize; 22], answers: &mut [u8]) -> bool
    ensures { (result ≡ is_announced (expected_from text.now expected) counts.entry.now (answer record { counts = counts.entry.now; answers = answers.old })) × (record { counts = counts.exit.now; answers = answers.new } ≡ judged_log (expected_from text.now expected) record { counts = counts.entry.now; answers = answers.old }) }
{
    if expected == 0 {
        return false;
    }
    if counts[BAD] != counts[OLD_BAD] {
        return false;
    }
    judge(bytes_from(text, expected), counts, answers)
}

// Whether the answer begins with the words of a text.
fn judge(text: &[u8], counts: &mut [usize; 22], answers: &mut [u8]) -> bool
    ensures { (result ≡ begins_with (wanted_in text.now) (answer record { counts = counts.entry.now; answers = answers.old })) × (record { counts = counts.exit.now; answers = answers.new } ≡ compared (wanted_in text.now) record { counts = counts.entry.now; answers = answers.old }) }
{
    let mut wanted = [0u8; 1024];
    let n = line_reader::put_words(&mut wanted, 0, first_bytes(text, WANTED));
    compare(first_bytes(&wanted, n), counts, answers)
}

// Whether the answer is as expected; where it is not, what was expected goes behind its first line.
fn compare(wanted: &[u8], counts: &mut [usize; 22], answers: &mut [u8]) -> bool
    ensures { (result ≡ begins_with wanted.now (answer record { counts = counts.entry.now; answers = answers.old })) × (record { counts = counts.exit.now; answers = answers.new } ≡ compared wanted.now record { counts = counts.entry.now; answers = answers.old }) }
{
    let agrees = begins(
        bytes_from(first_bytes(answers, counts[USED]), counts[BODY]),
        wanted,
    );
    counts[EXPECTED] = more(counts[EXPECTED], 1);
    if agrees {
        return true;
    }
    counts[DIFFER] = more(counts[DIFFER], 1);
    insert(wanted, counts, answers);
    false
}

// Whether the words behind an answer's first begin with those wanted, which one blank parts.
fn begins(bytes: &[u8], wanted: &[u8]) -> bool
    ensures { result ≡ begins_with wanted.now bytes.now }
{
    if wanted.len() == 0 {
        return true;
    }
    starts(
        bytes_from(bytes_from(bytes, place_of(bytes, 32)), 1),
        wanted,
    )
}

// Whether bytes start with others, and a word does not go on behind them.
fn starts(bytes: &[u8], wanted: &[u8]) -> bool
    ensures { result ≡ starts_with wanted.now bytes.now }
{
    if !bytes.starts_with(wanted) {
        return false;
    }
    if bytes.len() <= wanted.len() {
        return true;
    }
    bytes[wanted.len()] <= 32
}

// The place of the first byte c, or the end.
fn place_of(bytes: &[u8], c: u8) -> usize
    ensures { result ≡ place_of c bytes.now }
{
    for (i, byte) in bytes.iter().enumerate() {
        if *byte == c {
            return i;
        }
    }
    bytes.len()
}

// The end of the answer's first line.
fn first_end(counts: &[usize; 22], answers: &[u8]) -> usize
    ensures { result ≡ first_end record { counts = counts.entry.now; answers = answers.now } }
{
    let used = counts[USED];
    let body = counts[BODY];
    let place = place_of(bytes_from(first_bytes(answers, used), body), 10);
    no_later(body, place, used)
}

// The place so many bytes behind `body`, or `used` where that comes first.
fn no_later(body: usize, place: usize, used: usize) -> usize
    ensures { result ≡ min (body + place) used }
{
    more(body, place).min(used)
}

// Puts ` expected ` and the words behind the answer's first line.
fn insert(wanted: &[u8], counts: &mut [usize; 22], answers: &mut [u8])
    ensures { record { counts = counts.exit.now; answers = answers.new } ≡ inserted wanted.now record { counts = counts.entry.now; answers = answers.old } }
{
    let end = first_end(counts, answers);
    let used = counts[USED];
    let last = phrase::heads::put_expected(answers, used, wanted);
    counts[USED] = last;
    if answers.len() < last {
        return;
    }
    rotate(answers, end, used, last);
}

// Brings the bytes from `middle` to `last` before those from `first` on.
fn rotate(text: &mut [u8], first: usize, middle: usize, last: usize)
    requires { (first ≤ middle) × (middle ≤ last) × (last ≤ length text.old) }
    ensures { text.new ≡ take first text.old ++ (drop middle (take last text.old) ++ (drop first (take middle text.old) ++ drop last text.old)) }
{
    text[first..last].rotate_left(middle - first);
}

// In a check an answer that needs no look is dropped, and of another the first line is kept, with the
// item's name.
fn keep_trouble(counts: &mut [usize; 22], names: &[u8], answers: &mut [u8])
    ensures { record { counts = counts.exit.now; answers = answers.new } ≡ looked names.now record { counts = counts.entry.now; answers = answers.old } }
{
    if trouble(counts) == counts[OLD_TROUBLE] {
        counts[USED] = counts[START];
        return;
    }
    keep_first(counts, names, answers);
}

// Of the answer its first line, with the item's name if it has one.
fn keep_first(counts: &mut [usize; 22], names: &[u8], answers: &mut [u8])
    ensures { record { counts = counts.exit.now; answers = answers.new } ≡ shortened names.now record { counts = counts.entry.now; answers = answers.old } }
{
    let end = first_end(counts, answers);
    if counts[NAME] == 0 {
        counts[USED] = phrase::heads::put_end(answers, end);
        return;
    }
    let name = bytes_from(first_bytes(names, counts[NAME]), NAME_PLACE);
    counts[USED] = phrase::heads::put_name(answers, end, name);
}
