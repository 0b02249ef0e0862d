// The lines `tick`, `at` and `stretch`.
ghost use Rattle.std.specs.Prelude.{◌≡◌, ◌-◌, min};
ghost use Rattle.wording.specs.Text.{PutEach};
ghost use Rattle.item_calls.specs.Lines.{moved_by, single_line, tick_line, ticks_begun, at_line, at_begun, ticks_part, part_ended, stretch_line, stretch_reports};

use device::{Answer, Model};
use item_state::counts::{LEFT, MOMENT, USED, count, count_call, more};
use unit::Ticks;

// The ticks of a part: what they report has room in the buffer of answers.
const PART: Ticks = Ticks(1048576);

// The most ticks of a stretch.
const LONGEST: Ticks = Ticks(16384);

// n ticks, or the next part of them.
pub fn tick(m: Model, n: Ticks, counts: &mut [usize; 22], answers: &mut [u8]) -> Model
    ensures { record { model = result; log = record { counts = counts.exit.now; answers = answers.new } } ≡ tick_line n.0 m record { counts = counts.entry.now; answers = answers.old } }
{
    if n.0 == 1 {
        return single(m, counts, answers);
    }
    begin_ticks(n, counts, answers);
    run(m, n, counts, answers)
}

// The line's first words, and its ticks as those left, unless it is under way.
fn begin_ticks(n: Ticks, counts: &mut [usize; 22], answers: &mut [u8])
    ensures { record { counts = counts.exit.now; answers = answers.new } ≡ ticks_begun n.0 record { counts = counts.entry.now; answers = answers.old } }
{
    if counts[LEFT] != 0 {
        return;
    }
    counts[MOMENT] = more(counts[MOMENT], n.0 as usize);
    let start = phrase::heads::put_tick(answers, counts[USED], n);
    count(counts, 0, start);
    counts[LEFT] = n.0 as usize;
}

fn single(m: Model, counts: &mut [usize; 22], answers: &mut [u8]) -> Model
    ensures { record { model = result; log = record { counts = counts.exit.now; answers = answers.new } } ≡ single_line m record { counts = counts.entry.now; answers = answers.old } }
{
    let reply = converter::tick(m);
    let answer = reply.answer;
    counts[MOMENT] = more(counts[MOMENT], 1);
    let used = phrase::ticks::put_single(answers, counts[USED], answer);
    count_call(counts, answer, used);
    reply.model
}

// Ticks up to the moment t, which has not passed, or the next part of them.
pub fn at(m: Model, t: Ticks, counts: &mut [usize; 22], answers: &mut [u8]) -> Model
    ensures { record { model = result; log = record { counts = counts.exit.now; answers = answers.new } } ≡ at_line t.0 m record { counts = counts.entry.now; answers = answers.old } }
{
    begin_at(t, counts, answers);
    run(m, t, counts, answers)
}

fn begin_at(t: Ticks, counts: &mut [usize; 22], answers: &mut [u8])
    ensures { record { counts = counts.exit.now; answers = answers.new } ≡ at_begun t.0 record { counts = counts.entry.now; answers = answers.old } }
{
    if counts[LEFT] != 0 {
        return;
    }
    let left = (t.0 as usize).saturating_sub(counts[MOMENT]);
    counts[MOMENT] = t.0 as usize;
    let start = phrase::heads::put_at(answers, counts[USED], t);
    count(counts, 0, start);
    counts[LEFT] = left;
}

// The ticks that are left, of so many, or a part of them: in stretches, which end as so many single ticks do. Reports are counted from
// the ticks before; the line ends with the last.
fn run(m: Model, total: Ticks, counts: &mut [usize; 22], answers: &mut [u8]) -> Model
    ensures { record { model = result; log = record { counts = counts.exit.now; answers = answers.new } } ≡ ticks_part total.0 m record { counts = counts.entry.now; answers = answers.old } }
{
    let all = at_most(counts[LEFT], total);
    let part = at_most(all.0 as usize, PART);
    let mut model = m;
    let mut left = part;
    let mut before = Ticks(total.0 - all.0);
    let mut place = counts[USED];
    // Kept as a while: a stretch takes as many ticks as are left, LONGEST at most, and no index is counted.
    while left.0 > 0 {
        let span = at_most(left.0 as usize, LONGEST);
        let reply = converter::stretch(model, span);
        model = reply.model;
        let answer = reply.answer;
        place = add_reports(answers, answer, before, place);
        let later = Ticks(before.0 + span.0);
        let fewer = Ticks(left.0 - span.0);
        before = later;
        left = fewer;
    }
    counts[USED] = place;
    end_part(Ticks(all.0 - part.0), counts, answers);
    model
}

// So many, n at most.
fn at_most(k: usize, n: Ticks) -> Ticks
    ensures { result.0 ≡ min k n.0 }
{
    Ticks(k.min(n.0 as usize) as u32)
}

// Behind a part of the ticks, so many being left: with the last of them the line ends.
fn end_part(left: Ticks, counts: &mut [usize; 22], answers: &mut [u8])
    ensures { record { counts = counts.exit.now; answers = answers.new } ≡ part_ended left.0 record { counts = counts.entry.now; answers = answers.old } }
{
    counts[LEFT] = left.0 as usize;
    if left.0 > 0 {
        return;
    }
    counts[USED] = phrase::heads::put_end(answers, counts[USED]);
}

// Adds what a stretch reports, and answers the place behind it.
fn add_reports(answers: &mut [u8], answer: Answer, before: Ticks, place: usize) -> usize
    ensures { PutEach answers.old place (stretch_reports answer before.0) result answers.new }
{
    match answer {
        Answer::Stretched(flight, temperature) => {
            if phrase::ticks::none_named(flight, temperature) {
                return place;
            }
            phrase::ticks::put_named(answers, place, flight, temperature, before)
        }
        _ => place,
    }
}

// One stretch of n ticks.
pub fn stretch(m: Model, n: Ticks, counts: &mut [usize; 22], answers: &mut [u8]) -> Model
    ensures { record { model = result; log = record { counts = counts.exit.now; answers = answers.new } } ≡ stretch_line n.0 m record { counts = counts.entry.now; answers = answers.old } }
{
    let reply = converter::stretch(m, n);
    let answer = reply.answer;
    move_by(counts, answer, n);
    let used = phrase::heads::put_stretch(answers, counts[USED], answer, n);
    count_call(counts, answer, used);
    reply.model
}

// A stretch that is refused moves no moment.
fn move_by(counts: &mut [usize; 22], answer: Answer, n: Ticks)
    ensures { counts.new ≡ moved_by answer n.0 counts.old }
{
    match answer {
        Answer::Refused(_) => {}
        _ => counts[MOMENT] = more(counts[MOMENT], n.0 as usize),
    }
}
