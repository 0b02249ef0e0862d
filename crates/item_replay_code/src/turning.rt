// One turn of a replay.
ghost use Rattle.std.specs.Prelude.{◌≡◌, ◌+◌, ◌≤◌, ◌<◌, length, take};
ghost use Rattle.item_replay_code.specs.OwnGone.{TurnReady};
ghost use Rattle.item_replay_code.specs.OwnState.{Fits};
ghost use Rattle.item_replay_code.specs.OwnLine.{LineAsks, LineTurns};
ghost use Rattle.item_replay_code.specs.OwnTurn.{Bounded, Turns, TurnsOn};

use crate::after::line_held;
use crate::ended::{at_line, other_line, show_line, tick_line};
use crate::going::go_on;
use crate::hold::hold_line;
use crate::sorts::{expected_of, sort};
use crate::{Held, Sort, State, Turn};
use item_line_code::read_line;
use text_code::first_bytes;

// Goes on with a line of ticks, or with the line of the text from a place on.
pub fn turn(
    text: &[u8],
    from: usize,
    s: State,
    line: &mut [u8],
    numbers: &mut [u32],
    flash: &mut [u8],
    recorded: &mut [i32],
    probes: &mut [u32],
    answers: &mut [u8],
    at: usize,
) -> Turn
    requires { TurnReady s line.old flash.old recorded.old probes.old × (length numbers.old ≡ 512) × (from ≤ length text.now) × (at + 100000 ≤ length answers.old) }
    ensures { Turns text.now from s line.old flash.old recorded.old probes.old answers.old at result line.new flash.new recorded.new probes.new answers.new }
{
    if 0 < s.left.0 {
        return under_way(s, from, line, numbers, answers, at);
    }
    let h = hold_line(text, from, line, s.begun);
    if h.whole {
        return whole_line(s, h, line, numbers, flash, recorded, probes, answers, at);
    }
    line_held(s, h.next, h.begun, at)
}

// Goes on with the line of ticks that is under way.
fn under_way(
    s: State,
    from: usize,
    line: &[u8],
    numbers: &mut [u32],
    answers: &mut [u8],
    at: usize,
) -> Turn
    requires { (0 < s.left.0) × Fits s.carried × Bounded s × (length numbers.old ≡ 512) × (at + 100000 ≤ length answers.old) }
    ensures { TurnsOn s from line.now answers.old at result answers.new }
{
    let bytes = first_bytes(line, s.begun);
    let said = read_line(bytes, numbers);
    let x = expected_of(said);
    go_on(s, from, line, x, answers, at)
}

// The line that has ended, by its sort.
fn whole_line(
    s: State,
    h: Held,
    line: &[u8],
    numbers: &mut [u32],
    flash: &mut [u8],
    recorded: &mut [i32],
    probes: &mut [u32],
    answers: &mut [u8],
    at: usize,
) -> Turn
    requires { LineAsks s h flash.old recorded.old probes.old × (length numbers.old ≡ 512) × (at + 100000 ≤ length answers.old) }
    ensures { LineTurns s h (take h.begun line.now) flash.old recorded.old probes.old answers.old at result flash.new recorded.new probes.new answers.new }
{
    let bytes = first_bytes(line, h.begun);
    let said = read_line(bytes, numbers);
    let kind = sort(said);
    match kind {
        Sort::Tick(n, x) => tick_line(s, h, bytes, n, x, answers, at),
        Sort::At(t, x) => at_line(s, h, bytes, t, x, answers, at),
        Sort::Show => show_line(s, h, bytes, answers, at),
        Sort::Other => other_line(
            s, h, bytes, said, numbers, flash, recorded, probes, answers, at,
        ),
    }
}
