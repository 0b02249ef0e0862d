// A line of ticks, after those that had room.
ghost use Rattle.std.specs.Prelude.{◌≡◌, ◌<◌};
ghost use Rattle.item_line.specs.OwnRead.{as_expected};
ghost use Rattle.item_answer.specs.Step.{expects as Step·expects};
ghost use Rattle.item_answer.specs.OwnView.{tally_of};
ghost use Rattle.item_replay_code.specs.OwnState.{Few};
ghost use Rattle.item_replay_code.specs.OwnTurn.{AfterRest, ticks_tally};

use crate::after::{line_done, line_left};
use crate::{RestRan, State, Turn};
use item_answer::Counts;
use text::Span;
use text_code::{count_words, part_of};

// The line is done where no tick is left.
pub fn after_rest(
    s: State,
    taken: usize,
    line: &[u8],
    x: Option<Span>,
    r: RestRan,
    differs: bool,
) -> Turn
    requires { Few s.counts 9223372036854775807 × (s.number < 9223372036854775807) }
    ensures { AfterRest s taken (as_expected line.now x) r differs result }
{
    if r.left.0 == 0 {
        let adds = ticks_counts(line, x, differs);
        return line_done(s, taken, r.carried, adds, r.end);
    }
    line_left(s, taken, r.carried, r.left, r.next, differs, r.end)
}

// What a line of ticks adds to the counts.
fn ticks_counts(line: &[u8], x: Option<Span>, differs: bool) -> Counts
    ensures { (tally_of result ≡ ticks_tally differs (as_expected line.now x)) × Few result 80 }
{
    Counts {
        calls: 1,
        refused: 0,
        unannounced: 0,
        bad: 0,
        expectations: u64::from(expects(line, x)),
        differ: u64::from(differs),
    }
}

// Whether a line expects a word.
fn expects(line: &[u8], x: Option<Span>) -> bool
    ensures { result ≡ Step·expects (as_expected line.now x) }
{
    match x {
        None => false,
        Some(span) => 0 < count_words(part_of(line, span)),
    }
}
