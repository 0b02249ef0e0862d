// The lines `tick` and `at`.
ghost use Rattle.std.specs.Prelude.{◌≡◌, true, ◌+◌, ◌≤◌, ◌<◌, length};
ghost use Rattle.device.specs.Model.{is_sound};
ghost use Rattle.item_line.specs.OwnRead.{as_expected};
ghost use Rattle.item_replay_code.specs.OwnRest.{Differs, TicksRun};

use crate::TicksBegun;
use crate::rest::run_rest;
use device::Model;
use item_answer::Carried;
use item_ticks_code::ticks_differ;
use text::Span;
use text_code::part_of;
use unit::Ticks;

// Begins a line of n ticks, the first of them tick `next`, and runs them as far as there is room; `head` is the line's first word with a blank.
pub fn begin_ticks(
    c: Carried,
    head: &[u8],
    number: Ticks,
    n: Ticks,
    next: u64,
    line: &[u8],
    x: Option<Span>,
    answers: &mut [u8],
    at: usize,
) -> TicksBegun
    requires { (is_sound c.model ≡ true) × (next + n.0 < 9223372036854775808) × (c.moment + n.0 < 9223372036854775808) × (1100 ≤ length answers.old) }
    ensures { TicksRun c head.now number.0 n.0 next (as_expected line.now x) answers.old at result answers.new }
{
    let differs = differ(c.model, n, next, number, line, x);
    let a = numeral::put_text(answers, at, head);
    let b = numeral::put_decimal(answers, a, number.0 as u64);
    let rest = run_rest(c, n, next, differs, line, x, answers, b);
    TicksBegun { rest, differs }
}

// Whether the answer of a line of ticks differs from what the line expects.
fn differ(m: Model, n: Ticks, next: u64, number: Ticks, line: &[u8], x: Option<Span>) -> bool
    requires { (is_sound m ≡ true) × (next + n.0 < 9223372036854775808) }
    ensures { Differs m n.0 next number.0 (as_expected line.now x) result }
{
    match x {
        None => false,
        Some(span) => ticks_differ(m, n, next, number, part_of(line, span)),
    }
}
