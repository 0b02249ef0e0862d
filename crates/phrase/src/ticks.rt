// What ticks report.
ghost use Rattle.std.specs.Prelude.{◌≡◌, ◌==◌};
ghost use Rattle.wording.specs.Text.{PutEach};
ghost use Rattle.wording.specs.Wording.{quiet as Wording·quiet, reported_where, kind_reports, ticked, single};
ghost use Rattle.wording.specs.Wording.{report_at, tick_reports, sooner as Wording·sooner, next_named, no_tick};
ghost use Rattle.wording.specs.Wording.{later_named, named, stretched};

use device::{Answer, Report, StretchReport};
use unit::Ticks;

// No tick is named: a number beyond every tick of a stretch.
// A number and no Option: the definition of the text is by this number, and puts what a report has for it.
const NONE: Ticks = Ticks(4294967295);

// What a single tick reports.
pub fn put_single(out: &mut [u8], at: usize, answer: Answer) -> usize
    ensures { PutEach out.old at (single answer) result out.new }
{
    match answer {
        Answer::Ticked(flight, temperature) => {
            if quiet(flight, temperature) {
                numeral::put_text(out, at, b"tick 1\n")
            } else {
                put_ticked(out, at, flight, temperature)
            }
        }
        _ => at,
    }
}

// Whether nothing happened.
fn quiet(flight: Report, temperature: Report) -> bool
    ensures { result ≡ Wording·quiet flight temperature }
{
    if flight.started {
        return false;
    }
    if flight.failed {
        return false;
    }
    if temperature.started {
        return false;
    }
    !temperature.failed
}

fn put_ticked(out: &mut [u8], at: usize, flight: Report, temperature: Report) -> usize
    ensures { PutEach out.old at (ticked flight temperature) result out.new }
{
    let a = numeral::put_text(out, at, b"tick 1");
    let b = put_kind(out, a, flight, b" failed-flight@1", b" started-flight@1");
    let c = put_kind(
        out,
        b,
        temperature,
        b" failed-temperature@1",
        b" started-temperature@1",
    );
    numeral::put_text(out, c, b"\n")
}

fn put_kind(out: &mut [u8], at: usize, report: Report, failed: &[u8], started: &[u8]) -> usize
    ensures { PutEach out.old at (kind_reports report failed.now started.now) result out.new }
{
    let a = put_where(out, at, report.failed, failed);
    put_where(out, a, report.started, started)
}

fn put_where(out: &mut [u8], at: usize, holds: bool, what: &[u8]) -> usize
    ensures { PutEach out.old at (reported_where holds what.now) result out.new }
{
    if holds {
        return numeral::put_text(out, at, what);
    }
    at
}

// What one stretch of n ticks reports, or its refusal.
pub fn put_stretched(out: &mut [u8], at: usize, answer: Answer, n: Ticks) -> usize
    ensures { PutEach out.old at (stretched answer n.0) result out.new }
{
    match answer {
        Answer::Refused(refusal) => crate::refusals::put_refusal(out, at, refusal),
        Answer::Stretched(flight, temperature) => {
            let a = numeral::put_text(out, at, b" ");
            let b = numeral::put_decimal(out, a, n.0 as u64);
            put_named(out, b, flight, temperature, Ticks(0))
        }
        _ => at,
    }
}

// Whether a stretch names no tick.
pub fn none_named(flight: StretchReport, temperature: StretchReport) -> bool
    ensures { result ≡ (next_named flight temperature 0 == no_tick) }
{
    let first = next_named(flight, temperature, Ticks(0));
    first.0 == NONE.0
}

// The ticks that a stretch names, in order of time; `done` ticks came before it.
pub fn put_named(
    out: &mut [u8],
    at: usize,
    flight: StretchReport,
    temperature: StretchReport,
    done: Ticks,
) -> usize
    ensures { PutEach out.old at (named flight temperature done.0) result out.new }
{
    let first = next_named(flight, temperature, Ticks(0));
    let a = put_tick(out, at, flight, temperature, first, done);
    let second = next_named(flight, temperature, first);
    let b = put_tick(out, a, flight, temperature, second, done);
    put_later(out, b, flight, temperature, second, done)
}

// What is named after `tick`, two at most.
fn put_later(
    out: &mut [u8],
    at: usize,
    flight: StretchReport,
    temperature: StretchReport,
    tick: Ticks,
    done: Ticks,
) -> usize
    ensures { PutEach out.old at (later_named flight temperature tick.0 done.0) result out.new }
{
    let third = next_named(flight, temperature, tick);
    let a = put_tick(out, at, flight, temperature, third, done);
    let fourth = next_named(flight, temperature, third);
    put_tick(out, a, flight, temperature, fourth, done)
}

// The first tick named after `tick`, or NONE.
fn next_named(flight: StretchReport, temperature: StretchReport, tick: Ticks) -> Ticks
    ensures { result.0 ≡ next_named flight temperature tick.0 }
{
    let a = sooner(flight.failed, tick, NONE);
    let b = sooner(flight.started, tick, a);
    let c = sooner(temperature.failed, tick, b);
    sooner(temperature.started, tick, c)
}

// The tick `named` where it lies after `tick` and before `best`, else `best`.
fn sooner(named: Ticks, tick: Ticks, best: Ticks) -> Ticks
    ensures { result.0 ≡ Wording·sooner named.0 tick.0 best.0 }
{
    if named.0 <= tick.0 {
        return best;
    }
    if named.0 < best.0 { named } else { best }
}

// What happened in tick i of a stretch.
fn put_tick(
    out: &mut [u8],
    at: usize,
    flight: StretchReport,
    temperature: StretchReport,
    i: Ticks,
    done: Ticks,
) -> usize
    ensures { PutEach out.old at (tick_reports flight temperature i.0 done.0) result out.new }
{
    let n = Ticks(done.0.wrapping_add(i.0));
    let a = put_report(out, at, same(flight.failed, i), b" failed-flight@", n);
    let b = put_report(out, a, same(flight.started, i), b" started-flight@", n);
    let c = put_report(
        out,
        b,
        same(temperature.failed, i),
        b" failed-temperature@",
        n,
    );
    put_report(
        out,
        c,
        same(temperature.started, i),
        b" started-temperature@",
        n,
    )
}

fn same(a: Ticks, b: Ticks) -> bool
    ensures { result ≡ (a.0 == b.0) }
{
    a.0 == b.0
}

fn put_report(out: &mut [u8], at: usize, holds: bool, what: &[u8], i: Ticks) -> usize
    ensures { PutEach out.old at (report_at holds what.now i.0) result out.new }
{
    if holds {
        let a = numeral::put_text(out, at, what);
        return numeral::put_decimal(out, a, i.0 as u64);
    }
    at
}
