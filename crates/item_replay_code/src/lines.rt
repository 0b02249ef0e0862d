// The lines of a piece of text, one after the other.
ghost use Rattle.std.specs.Prelude.{◌≡◌, ◌+◌, ◌<◌, leb, ltb, length};
ghost use Rattle.unit.specs.Choice.{both};
ghost use Rattle.device.specs.Reply.{flag};
ghost use Rattle.item_answer.specs.OwnView.{tally_of};
ghost use Rattle.item_replay_code.specs.OwnGone.{Goes, Marked, Ready, bits_of};

use crate::turning::turn;
use crate::{Gone, State};
use item_answer::Counts;

// The places that must be left for a line to be begun: more than the longest answer, and what ends a line of ticks.
const ROOM: usize = 100000;

// The most lines of a call.
const LINES: usize = 16777216;

// Answers the lines of a piece, as many as have room, and a mark for each of them.
pub fn go(
    text: &[u8],
    s: State,
    line: &mut [u8],
    flash: &mut [u8],
    recorded: &mut [i32],
    probes: &mut [u32],
    answers: &mut [u8],
    marks: &mut [u64],
) -> Gone
    requires { Ready s 0 line.old flash.old recorded.old probes.old × (length answers.old < 4294967296) }
    ensures { Goes text.now s line.old flash.old recorded.old probes.old answers.old marks.old result line.new flash.new recorded.new probes.new answers.new marks.new }
{
    let mut numbers = [0u32; 512];
    let mut state = s;
    let mut taken = 0;
    let mut used = 0;
    let mut count = 0;
    let mut more = true;
    // A while: a turn takes what it takes of the piece, and no index counts turns.
    while more && has_room(answers.len(), used, marks.len(), count) {
        let t = turn(
            text,
            taken,
            state,
            line,
            &mut numbers,
            flash,
            recorded,
            probes,
            answers,
            used,
        );
        count = mark(marks, count, used, t.used, t.done, t.adds);
        state = t.state;
        taken = t.taken;
        used = t.used;
        more = t.more;
    }
    Gone {
        state,
        taken,
        used,
        count,
    }
}

// Whether there is room for another line's answer and its mark.
fn has_room(places: usize, used: usize, marks: usize, count: usize) -> bool
    ensures { result ≡ both (leb (used + 100000) places) (both (ltb count marks) (ltb count 16777216)) }
{
    has_places(places, used) && has_marks(marks, count)
}

fn has_places(places: usize, used: usize) -> bool
    ensures { result ≡ leb (used + 100000) places }
{
    ROOM <= places && used <= places - ROOM
}

fn has_marks(marks: usize, count: usize) -> bool
    ensures { result ≡ both (ltb count marks) (ltb count 16777216) }
{
    count < marks && count < LINES
}

// The mark of a line that is done: the place after its answer, times 32, and its outcome.
fn mark(marks: &mut [u64], count: usize, at: usize, used: usize, done: bool, adds: Counts) -> usize
    requires { (count < length marks.old) × (used < 4294967296) × (count < 16777216) }
    ensures { Marked marks.old count at used done adds result marks.new }
{
    if done {
        marks[count] = used as u64 * 32 + bits(at < used, adds);
        return count + 1;
    }
    count
}

// The outcome of a line as a number.
fn bits(answered: bool, c: Counts) -> u64
    ensures { (result ≡ bits_of answered (tally_of c)) × (result < 32) }
{
    let a = bit(answered);
    let b = bit(0 < c.refused);
    let d = bit(c.unannounced < c.refused);
    let e = bit(0 < c.differ);
    let f = bit(0 < c.bad);
    a + 2 * b + 4 * d + 8 * e + 16 * f
}

// A truth value as a number, with its bound.
fn bit(b: bool) -> u64
    ensures { (result ≡ flag b) × (result < 2) }
{
    u64::from(b)
}
