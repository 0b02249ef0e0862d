// What a line adds to the counts of the last line.
ghost use Rattle.std.specs.Prelude.{◌≡◌};
ghost use Rattle.item_answer.specs.Step.{no_tally};
ghost use Rattle.item_answer.specs.OwnView.{tally_of};
ghost use Rattle.item_keep_code.specs.OwnJudged.{tallied, bad_tally};

use crate::Judged;
use item_answer::Counts;

// An answer; `calls` is 1 for a call.
pub fn told_counts(calls: u64, refused: bool, judged: Judged) -> Counts
    ensures { tally_of result ≡ tallied calls refused judged }
{
    Counts {
        calls,
        refused: u64::from(refused),
        unannounced: u64::from(refused && !judged.agrees),
        bad: 0,
        expectations: u64::from(judged.expects),
        differ: u64::from(judged.differs),
    }
}

// A bad line.
pub fn bad_counts() -> Counts
    ensures { tally_of result ≡ bad_tally }
{
    Counts {
        bad: 1,
        ..no_counts()
    }
}

// A line that is not counted.
pub fn no_counts() -> Counts
    ensures { tally_of result ≡ no_tally }
{
    Counts {
        calls: 0,
        refused: 0,
        unannounced: 0,
        bad: 0,
        expectations: 0,
        differ: 0,
    }
}
