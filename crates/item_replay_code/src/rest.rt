// The ticks of a line that is under way.
ghost use Rattle.std.specs.Prelude.{◌≡◌, true, ◌+◌, ◌≤◌, ◌<◌, length};
ghost use Rattle.device.specs.Model.{is_sound};
ghost use Rattle.text.specs.OwnPut.{Puts};
ghost use Rattle.item_line.specs.OwnRead.{as_expected};
ghost use Rattle.item_answer.specs.Step.{expected_text};
ghost use Rattle.item_replay_code.specs.OwnRest.{RestRuns, ending_of, line_ending};

use crate::RestRan;
use item_answer::Carried;
use item_ticks_code::run_ticks;
use text::Span;
use text_code::{part_of, put_spaced};
use unit::Ticks;

// The places that the end of a line of ticks may need: ` expected `, the words and the line feed.
const ENDING: usize = 1100;

// Runs the ticks that are left of a line, as many as have room for their reports, and ends the line after the last of them.
pub fn run_rest(
    c: Carried,
    left: Ticks,
    next: u64,
    differs: bool,
    line: &[u8],
    x: Option<Span>,
    answers: &mut [u8],
    at: usize,
) -> RestRan
    requires { (is_sound c.model ≡ true) × (next + left.0 < 9223372036854775808) × (c.moment + left.0 < 9223372036854775808) × (1100 ≤ length answers.old) }
    ensures { RestRuns c left.0 next differs (as_expected line.now x) answers.old at result answers.new }
{
    let stop = answers.len() - ENDING;
    let r = run_ticks(c.model, left, next, answers, at, stop);
    let ran = left.0 - r.left.0;
    let moment = c.moment + ran as u64;
    let end = put_ending(r.left, differs, line, x, answers, r.end);
    RestRan {
        carried: Carried {
            model: r.model,
            moment,
            ..c
        },
        left: r.left,
        next: r.next,
        end,
    }
}

// The end of a line of ticks, where no tick is left.
fn put_ending(
    left: Ticks,
    differs: bool,
    line: &[u8],
    x: Option<Span>,
    answers: &mut [u8],
    at: usize,
) -> usize
    ensures { Puts answers.old at (ending_of left.0 differs (as_expected line.now x)) result answers.new }
{
    if left.0 == 0 {
        return put_line_ending(differs, line, x, answers, at);
    }
    at
}

fn put_line_ending(
    differs: bool,
    line: &[u8],
    x: Option<Span>,
    answers: &mut [u8],
    at: usize,
) -> usize
    ensures { Puts answers.old at (line_ending differs (as_expected line.now x)) result answers.new }
{
    if differs {
        let a = put_expected(line, x, answers, at);
        return numeral::put_text(answers, a, b"\n");
    }
    numeral::put_text(answers, at, b"\n")
}

// ` expected ` and the words that a line expects.
fn put_expected(line: &[u8], x: Option<Span>, answers: &mut [u8], at: usize) -> usize
    ensures { Puts answers.old at (expected_text (as_expected line.now x)) result answers.new }
{
    match x {
        None => at,
        Some(span) => {
            let a = numeral::put_text(answers, at, b" expected ");
            put_spaced(answers, a, part_of(line, span))
        }
    }
}
