// What ticks report.
ghost use Rattle.std.specs.Prelude.{◌≡◌, ◌++◌, ◌+◌, ◌<◌, eqb};
ghost use Rattle.numeral.specs.Print.{decimal};
ghost use Rattle.device.specs.declared.Answer.TheVariants.{Stretched};
ghost use Rattle.text.specs.Text.{text_where};
ghost use Rattle.text.specs.OwnPut.{Puts};
ghost use Rattle.item_answer.specs.Words.{reports_at, reports_to};
ghost use Rattle.item_words_code.specs.OwnReports.{sooner as OwnReports·sooner, next_named, reports_in, reports_after};

use device::{Answer, Report, StretchReport};
use unit::Ticks;

// What an answer reports of tick i: of a single tick, whose number is i, or of a stretch, which names its ticks.
pub fn put_reports_at(buf: &mut [u8], at: usize, i: u64, answer: Answer) -> usize
    ensures { Puts buf.old at (reports_at i answer) result buf.new }
{
    match answer {
        Answer::Ticked(flight, temperature) => put_reports(buf, at, flight, temperature, i),
        Answer::Stretched(flight, temperature) => {
            let f = named_in(flight, i);
            let t = named_in(temperature, i);
            put_reports(buf, at, f, t, i)
        }
        _ => at,
    }
}

// The reports of ticks 1 to n of a stretch.
pub fn put_reports_to(
    buf: &mut [u8],
    at: usize,
    n: Ticks,
    flight: StretchReport,
    temperature: StretchReport,
) -> usize
    ensures { Puts buf.old at (reports_to n.0 (Stretched flight temperature)) result buf.new }
{
    put_reports_after(buf, at, 0, n, flight, temperature)
}

// The same of a stretch that comes after `done` ticks, which are counted too.
pub fn put_reports_after(
    buf: &mut [u8],
    at: usize,
    done: u64,
    n: Ticks,
    flight: StretchReport,
    temperature: StretchReport,
) -> usize
    requires { done + n.0 < 18446744073709551616 }
    ensures { Puts buf.old at (reports_after done n.0 flight temperature) result buf.new }
{
    let last = unit::wide(n.0);
    let mut place = at;
    let mut passed = 0;
    // A while: it goes from one named tick to the next, and no index counts them.
    while let Some(next) = next_named(flight, temperature, passed) {
        if next > last {
            return place;
        }
        let f = named_in(flight, next);
        let t = named_in(temperature, next);
        place = put_reports(buf, place, f, t, done + next);
        passed = next;
    }
    place
}

// The first tick named after `passed`.
fn next_named(flight: StretchReport, temperature: StretchReport, passed: u64) -> Option<u64>
    ensures { result ≡ next_named flight temperature passed }
{
    let a = sooner(flight.failed, passed, None);
    let b = sooner(flight.started, passed, a);
    let c = sooner(temperature.failed, passed, b);
    sooner(temperature.started, passed, c)
}

// The sooner of `best` and the tick `named`, where that lies after `passed`.
fn sooner(named: Ticks, passed: u64, best: Option<u64>) -> Option<u64>
    ensures { result ≡ OwnReports·sooner named.0 passed best }
{
    let tick = u64::from(named.0);
    if tick <= passed {
        return best;
    }
    match best {
        Some(other) => Some(tick.min(other)),
        None => Some(tick),
    }
}

// What a stretch reports of its tick i.
fn named_in(named: StretchReport, i: u64) -> Report
    ensures { (result.failed ≡ eqb named.failed.0 i) × (result.started ≡ eqb named.started.0 i) }
{
    let started = named.started.0 as u64 == i;
    let failed = named.failed.0 as u64 == i;
    Report { started, failed }
}

// ` WHAT@I` for each thing that happened, in order.
pub fn put_reports(buf: &mut [u8], at: usize, flight: Report, temperature: Report, i: u64) -> usize
    ensures { Puts buf.old at (reports_in flight temperature i) result buf.new }
{
    let a = put_report(buf, at, flight.failed, b" failed-flight@", i);
    let b = put_report(buf, a, flight.started, b" started-flight@", i);
    let c = put_report(buf, b, temperature.failed, b" failed-temperature@", i);
    put_report(buf, c, temperature.started, b" started-temperature@", i)
}

fn put_report(buf: &mut [u8], at: usize, happened: bool, what: &[u8], i: u64) -> usize
    ensures { Puts buf.old at (text_where happened (what.now ++ decimal i)) result buf.new }
{
    if happened {
        let a = numeral::put_text(buf, at, what);
        return numeral::put_decimal(buf, a, i);
    }
    at
}
