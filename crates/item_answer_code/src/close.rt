// What stands after the first line of every answer.
ghost use Rattle.item_line.specs.OwnRead.{as_expected};
ghost use Rattle.item_answer_code.specs.OwnFirst.{Closes};

use item_answer::Stepped;
use item_chip_code::Answered;
use item_keep_code::counts::told_counts;
use item_keep_code::judge::put_judged;
use text::Span;

// Holds the first line of an answer, which was put from the place `start` on, against what its line expects, ends it and counts it. `calls` is
// 1 for a call.
pub fn close(
    calls: u64,
    first: Answered,
    text: &[u8],
    x: Option<Span>,
    answers: &mut [u8],
    start: usize,
) -> Stepped
    ensures { Closes calls (as_expected text.now x) first start answers.old result answers.new }
{
    let judged = put_judged(answers, start, first.end, text, x);
    let adds = told_counts(calls, first.refused, judged);
    let carried = first.carried;
    Stepped {
        carried,
        end: judged.end,
        adds,
    }
}
