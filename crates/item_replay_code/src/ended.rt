// The turn of a line that has ended, by its sort.
ghost use Rattle.std.specs.Prelude.{◌≡◌, ◌+◌, ◌-◌, ◌≤◌, ◌<◌, length};
ghost use Rattle.item_line.specs.Line.{Call, Line};
ghost use Rattle.item_line.specs.Reading.{line_of};
ghost use Rattle.item_line.specs.OwnRead.{as_expected, as_line};
ghost use Rattle.item_answer.specs.OwnView.{item_of};
ghost use Rattle.item_answer.specs.OwnKept.{Kept};
ghost use Rattle.item_answer_code.specs.OwnSteps.{Ready};
ghost use Rattle.item_replay_code.specs.OwnLine.{LineBeside, LineReady, LineTurns};

use crate::after::{line_done, with_begun};
use crate::going::start;
use crate::{Held, State, Turn};
use item_answer_code::answer_line;
use item_keep_code::bad::put_bad;
use item_keep_code::counts::{bad_counts, no_counts};
use item_line::{FaultRead, LineRead};
use item_page_code::put_page;
use text::Span;
use unit::Ticks;

// The line `tick`.
pub fn tick_line(
    s: State,
    h: Held,
    text: &[u8],
    n: Ticks,
    x: Option<Span>,
    answers: &mut [u8],
    at: usize,
) -> Turn
    requires { LineReady s h × (line_of text.now ≡ Line.call (Call.tick n.0) (as_expected text.now x)) × (at + 100000 ≤ length answers.old) }
    ensures { LineBeside s h text.now answers.old at result answers.new }
{
    let b = with_begun(s, h.begun);
    start(b, h.next, b"tick ", n, n, 1, text, x, answers, at)
}

// The line `at`.
pub fn at_line(
    s: State,
    h: Held,
    text: &[u8],
    t: Ticks,
    x: Option<Span>,
    answers: &mut [u8],
    at: usize,
) -> Turn
    requires { LineReady s h × (line_of text.now ≡ Line.call (Call.at t.0) (as_expected text.now x)) × (at + 100000 ≤ length answers.old) }
    ensures { LineBeside s h text.now answers.old at result answers.new }
{
    let moment = s.carried.moment;
    if unit::wide(t.0) < moment {
        return past_line(s, h, text, t, x, answers, at);
    }
    let n = gap(t, moment);
    let b = with_begun(s, h.begun);
    start(b, h.next, b"at ", t, n, moment + 1, text, x, answers, at)
}

// How many ticks a moment is from now.
fn gap(t: Ticks, moment: u64) -> Ticks
    requires { moment ≤ t.0 }
    ensures { result.0 ≡ t.0 - moment }
{
    Ticks(t.0 - moment as u32)
}

// The line `at` with a moment that is past.
fn past_line(
    s: State,
    h: Held,
    text: &[u8],
    t: Ticks,
    x: Option<Span>,
    answers: &mut [u8],
    at: usize,
) -> Turn
    requires { LineReady s h × (line_of text.now ≡ Line.call (Call.at t.0) (as_expected text.now x)) × (at + 100000 ≤ length answers.old) × (t.0 < s.carried.moment) }
    ensures { LineBeside s h text.now answers.old at result answers.new }
{
    let end = put_bad(answers, at, s.number, text, FaultRead::Past);
    line_done(s, h.next, s.carried, bad_counts(), end)
}

// The line `show`.
pub fn show_line(s: State, h: Held, text: &[u8], answers: &mut [u8], at: usize) -> Turn
    requires { LineReady s h × (line_of text.now ≡ Line.show) × (at + 100000 ≤ length answers.old) }
    ensures { LineBeside s h text.now answers.old at result answers.new }
{
    let end = put_page(answers, at, s.carried.model);
    line_done(s, h.next, s.carried, no_counts(), end)
}

// Every other line.
pub fn other_line(
    s: State,
    h: Held,
    text: &[u8],
    said: LineRead,
    numbers: &[u32],
    flash: &mut [u8],
    recorded: &mut [i32],
    probes: &mut [u32],
    answers: &mut [u8],
    at: usize,
) -> Turn
    requires { LineReady s h × Ready (line_of text.now) s.carried flash.old recorded.old probes.old × Kept (item_of s.carried flash.old recorded.old probes.old) × (as_line text.now numbers.now said ≡ line_of text.now) × (at + 100000 ≤ length answers.old) }
    ensures { LineTurns s h text.now flash.old recorded.old probes.old answers.old at result flash.new recorded.new probes.new answers.new }
{
    let r = answer_line(
        s.number, text, said, numbers, s.carried, flash, recorded, probes, answers, at,
    );
    line_done(s, h.next, r.carried, r.adds, r.end)
}
