// A turn on a line of ticks.
ghost use Rattle.std.specs.Prelude.{◌≡◌, true, ◌+◌, ◌≤◌, length, take};
ghost use Rattle.device.specs.Model.{is_sound};
ghost use Rattle.item_line.specs.OwnRead.{as_expected};
ghost use Rattle.item_replay_code.specs.OwnTurn.{Bounded, TicksTurn, Under, TurnsOn};

use crate::rest::run_rest;
use crate::ticks::begin_ticks;
use crate::under::after_rest;
use crate::{State, Turn};
use text::Span;
use text_code::first_bytes;
use unit::Ticks;

// Goes on with the line that is under way: runs as many of its ticks as have room; x is what the line expects.
pub fn go_on(
    s: State,
    from: usize,
    line: &[u8],
    x: Option<Span>,
    answers: &mut [u8],
    at: usize,
) -> Turn
    requires { Under s line.now (as_expected (take s.begun line.now) x) × (at + 1100 ≤ length answers.old) }
    ensures { TurnsOn s from line.now answers.old at result answers.new }
{
    let text = first_bytes(line, s.begun);
    let r = run_rest(s.carried, s.left, s.next, s.differs, text, x, answers, at);
    after_rest(s, from, text, x, r, s.differs)
}

// Begins a line of n ticks, the first of them tick `next`; `head` is the line's first word with a blank, and x is what the line expects.
pub fn start(
    s: State,
    taken: usize,
    head: &[u8],
    number: Ticks,
    n: Ticks,
    next: u64,
    text: &[u8],
    x: Option<Span>,
    answers: &mut [u8],
    at: usize,
) -> Turn
    requires { Bounded s × (is_sound s.carried.model ≡ true) × (next + n.0 ≤ 4294967296) × (1100 ≤ length answers.old) }
    ensures { TicksTurn s taken head.now number.0 n.0 next (as_expected text.now x) answers.old at result answers.new }
{
    let b = begin_ticks(s.carried, head, number, n, next, text, x, answers, at);
    after_rest(s, taken, text, x, b.rest, b.differs)
}
