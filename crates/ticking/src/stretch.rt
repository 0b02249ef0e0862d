// A stretch of ticks: moved on by many at once where nothing happens, else by a single tick.
ghost use Rattle.std.specs.Prelude.{◌≡◌, ◌≤◌, ◌+◌, ◌-◌, leb, ltb};
ghost use Rattle.unit.specs.Choice.{pick};
ghost use Rattle.device.specs.Tick.{tick_model};
ghost use Rattle.device.specs.Stretch.{model_ticked};
ghost use Rattle.device.specs.StretchSteps.{least as Stretch·least, quiet_left, quiet_wait, quiet_clock, quiet_schedule, quiet_for, later_schedule, later_clock, later_model, progress, moved_quietly, noted, moved_by_one, moved as Stretch·moved};

use crate::tick::tick_model;
use calendar::Clock;
use device::{Model, Progress, Schedule, StretchReport};
use schedule::{begins, fails};
use unit::Ticks;

// The most ticks that a stretch has.
pub const LONGEST: Ticks = Ticks(16384);

fn least(a: Ticks, b: Ticks) -> Ticks
    ensures { result.0 ≡ Stretch·least a.0 b.0 }
{
    Ticks(a.0.min(b.0))
}

// a - b, or 0.
fn less(a: Ticks, b: Ticks) -> Ticks
    ensures { result.0 ≡ a.0 - b.0 }
{
    Ticks(a.0.saturating_sub(b.0))
}

fn quiet_left(k: Schedule) -> Ticks
    ensures { result.0 ≡ quiet_left k }
{
    if k.left.0 == 0 {
        LONGEST
    } else {
        Ticks(k.left.0 - 1)
    }
}

fn quiet_wait(k: Schedule) -> Ticks
    ensures { result.0 ≡ quiet_wait k }
{
    if 1 < k.wait.0 {
        Ticks(k.wait.0 - 1)
    } else if !begins(k) && k.wait.0 == k.period.0 {
        LONGEST
    } else {
        Ticks(0)
    }
}

fn quiet_clock(m: Model) -> Ticks
    ensures { result.0 ≡ quiet_clock m }
{
    if setup::clock_stands(m.setup) {
        LONGEST
    } else {
        less(Ticks(32767), m.clock.ticks)
    }
}

fn quiet_schedule(k: Schedule) -> Ticks
    ensures { result.0 ≡ quiet_schedule k }
{
    least(quiet_left(k), quiet_wait(k))
}

// For how many ticks nothing starts, fails or ends a second.
pub fn quiet_for(m: Model) -> Ticks
    ensures { result.0 ≡ quiet_for m }
{
    let f = quiet_schedule(m.flight.schedule);
    let t = quiet_schedule(m.temperature.schedule);
    least(quiet_clock(m), least(f, t))
}

fn wait_later(k: Schedule, q: Ticks) -> Ticks
    ensures { result.0 ≡ pick (leb k.wait.0 1) k.wait.0 (k.wait.0 - q.0) }
{
    if k.wait.0 <= 1 {
        k.wait
    } else {
        less(k.wait, q)
    }
}

fn later_schedule(k: Schedule, q: Ticks) -> Schedule
    ensures { result ≡ later_schedule q.0 k }
{
    // Fields set by hand: a struct update copies the value once more in each call of a list.
    let mut n = k;
    n.left = less(k.left, q);
    n.wait = wait_later(k, q);
    n
}

fn later_clock(m: Model, q: Ticks) -> Clock
    requires { q.0 ≤ quiet_clock m }
    ensures { result ≡ later_clock q.0 m }
{
    if setup::clock_stands(m.setup) {
        return m.clock;
    }
    // Fields set by hand: a struct update copies the value once more in each call of a list.
    let mut n = m.clock;
    n.ticks = Ticks(m.clock.ticks.0 + q.0);
    n
}

// q ticks in which nothing happens.
fn later_model(m: Model, q: Ticks) -> Model
    requires { q.0 ≤ quiet_clock m }
    ensures { result ≡ later_model q.0 m }
{
    // Fields set by hand: a struct update copies the value once more in each call of a list.
    let mut n = m;
    n.clock = later_clock(m, q);
    n.flight.schedule = later_schedule(m.flight.schedule, q);
    n.temperature.schedule = later_schedule(m.temperature.schedule, q);
    n
}

fn note_tick(k: Schedule, at: Ticks, r: StretchReport) -> StretchReport
    ensures { result ≡ noted k at.0 r }
{
    StretchReport {
        started: unit::choose(begins(k), at, r.started),
        failed: unit::choose(fails(k), at, r.failed),
    }
}

fn moved_quietly(p: Progress, q: Ticks) -> Progress
    requires { (q.0 ≤ quiet_clock p.model) × (p.done.0 + q.0 ≤ 16384) }
    ensures { result ≡ moved_quietly q.0 p }
{
    // Fields set by hand: a struct update copies the value once more in each call of a list.
    let mut n = p;
    n.model = later_model(p.model, q);
    n.done = Ticks(p.done.0 + q.0);
    n
}

fn moved_by_one(p: Progress) -> Progress
    requires { p.done.0 ≤ 16384 }
    ensures { result ≡ moved_by_one p }
{
    let done = Ticks(p.done.0 + 1);
    Progress {
        model: tick_model(p.model),
        done,
        flight: note_tick(p.model.flight.schedule, done, p.flight),
        temperature: note_tick(p.model.temperature.schedule, done, p.temperature),
    }
}

// Moves on by at least one tick, and by `most` at most.
fn moved(p: Progress, most: Ticks) -> Progress
    requires { p.done.0 + most.0 ≤ 16384 }
    ensures { result ≡ Stretch·moved most.0 p }
{
    let quiet = quiet_for(p.model);
    if 0 < quiet.0 {
        moved_quietly(p, least(quiet, most))
    } else {
        moved_by_one(p)
    }
}

fn begin(m: Model) -> Progress
    ensures { result ≡ progress m 0 }
{
    let none = StretchReport {
        started: Ticks(0),
        failed: Ticks(0),
    };
    Progress {
        model: m,
        done: Ticks(0),
        flight: none,
        temperature: none,
    }
}

// Whether the next tick starts, fails and carries nothing.
pub fn next_is_quiet(m: Model) -> bool
    ensures { result ≡ ltb 0 (quiet_for m) }
{
    0 < quiet_for(m).0
}

// A tick that starts, fails and carries nothing.
pub fn quiet_tick(m: Model) -> Model
    requires { 1 ≤ quiet_for m }
    ensures { result ≡ tick_model m }
{
    later_model(m, Ticks(1))
}

// n such ticks at once.
pub fn quiet_ticks(m: Model, n: Ticks) -> Model
    requires { n.0 ≤ quiet_for m }
    ensures { result ≡ model_ticked n.0 m }
{
    later_model(m, n)
}

// n ticks in which nothing happens.
fn run_quietly(m: Model, n: Ticks) -> Progress
    requires { (n.0 ≤ quiet_for m) × (n.0 ≤ 16384) }
    ensures { result ≡ progress m n.0 }
{
    moved_quietly(begin(m), n)
}

// n ticks.
pub fn run(m: Model, n: Ticks) -> Progress
    requires { n.0 ≤ 16384 }
    ensures { result ≡ progress m n.0 }
{
    let quiet = quiet_for(m);
    if n.0 <= quiet.0 {
        return run_quietly(m, n);
    }
    let mut p = begin(m);
    // Kept as a while: it counts no index, since each step moves by as many ticks as the model lets it.
    while p.done.0 < n.0 {
        p = moved(p, less(n, p.done));
    }
    p
}
