// The state after a line.
ghost use Rattle.std.specs.Prelude.{◌<◌};
ghost use Rattle.item_replay_code.specs.OwnState.{Few};
ghost use Rattle.item_replay_code.specs.OwnTurn.{Begins, LineDone, LineHeld, LineLeft};

use crate::count::add;
use crate::{State, Turn};
use item_answer::{Carried, Counts};
use item_keep_code::counts::no_counts;
use unit::Ticks;

// A line is done.
pub fn line_done(s: State, taken: usize, c: Carried, adds: Counts, end: usize) -> Turn
    requires { Few s.counts 9223372036854775807 × Few adds 80 × (s.number < 9223372036854775807) }
    ensures { LineDone s taken c adds end result }
{
    Turn {
        state: State {
            number: s.number + 1,
            carried: c,
            counts: add(s.counts, adds),
            begun: 0,
            left: Ticks(0),
            next: 0,
            differs: false,
        },
        taken,
        used: end,
        done: true,
        adds,
        more: true,
    }
}

// The same with so many bytes of the line kept.
pub fn with_begun(s: State, begun: usize) -> State
    ensures { Begins s begun result }
{
    State { begun, ..s }
}

// More of a line has begun, and the piece is over.
pub fn line_held(s: State, taken: usize, begun: usize, at: usize) -> Turn
    ensures { LineHeld s taken begun at result }
{
    Turn {
        state: State {
            begun,
            left: Ticks(0),
            next: 0,
            differs: false,
            ..s
        },
        taken,
        used: at,
        done: false,
        adds: no_counts(),
        more: false,
    }
}

// A line of ticks is under way, and there is no room for more of it.
pub fn line_left(
    s: State,
    taken: usize,
    c: Carried,
    left: Ticks,
    next: u64,
    differs: bool,
    end: usize,
) -> Turn
    ensures { LineLeft s taken c left.0 next differs end result }
{
    Turn {
        state: State {
            carried: c,
            left,
            next,
            differs,
            ..s
        },
        taken,
        used: end,
        done: false,
        adds: no_counts(),
        more: false,
    }
}
