// Lines that are no calls.
ghost use Rattle.std.specs.Prelude.{◌≡◌};
ghost use Rattle.item_checks.specs.Fault.{at_least_one, is_past_or_full, is_fault, left_of, fault_said, fault_log};

use item_state::counts::{
    BAD, LINES, MOMENT, PROBE_PLACES, PROBES, RECORD, RECORD_PLACES, USED, more,
};
use line::Content;

// What a line holds that is still to be answered: nothing where it is a fault, which is told.
pub fn answer_fault(content: Content, counts: &mut [usize; 22], answers: &mut [u8]) -> Content
    ensures { (result ≡ left_of content counts.entry.now) × (record { counts = counts.exit.now; answers = answers.new } ≡ fault_log content record { counts = counts.entry.now; answers = answers.old }) }
{
    if is_fault(content, counts) {
        tell_fault(content, counts, answers);
        return Content::Nothing;
    }
    content
}

fn tell_fault(content: Content, counts: &mut [usize; 22], answers: &mut [u8])
    ensures { record { counts = counts.exit.now; answers = answers.new } ≡ fault_said content record { counts = counts.entry.now; answers = answers.old } }
{
    counts[BAD] = more(counts[BAD], 1);
    let number = counts[LINES] as u64;
    counts[USED] = phrase::fault::put_fault(answers, counts[USED], number, content);
}

fn is_fault(content: Content, counts: &[usize; 22]) -> bool
    ensures { result ≡ is_fault content counts.now }
{
    match content {
        Content::TooLong => true,
        Content::UnknownWord => true,
        Content::BadNumber => true,
        Content::WrongCount => true,
        _ => is_past_or_full(content, counts),
    }
}

// A line that is no call because of what came before it: its moment has passed, or there is no room.
fn is_past_or_full(content: Content, counts: &[usize; 22]) -> bool
    ensures { result ≡ is_past_or_full content counts.now }
{
    match content {
        Content::At(t) => (t as usize) < counts[MOMENT],
        Content::Probe(n) => PROBE_PLACES < more(counts[PROBES], n),
        Content::Record(n) => RECORD_PLACES < more(counts[RECORD], at_least_one(n)),
        _ => false,
    }
}

// A record without numbers takes one difference.
fn at_least_one(n: usize) -> usize
    ensures { result ≡ at_least_one n }
{
    if n == 0 { 1 } else { n }
}
