// The state of the run.
ghost use Rattle.std.specs.Prelude.{◌∷◌, ◌≡◌};
ghost use Rattle.wording.specs.Text.{PutEach};
ghost use Rattle.page.specs.Row.{ended, lines};
ghost use Rattle.page.specs.Run.{initialised_row, left_ticks, awaited_row, place_texts, event_texts, wait_texts, next_texts, run_rows};

use crate::row::{put_line, put_plural};
use device::Model;
use form::{put_form, put_where};
use item_state::told::value;
use refusal::Refusal;
use run_state::Place;
use unit::Ticks;

pub fn put_run(buf: &mut [u8], at: usize, m: Model) -> usize
    ensures { PutEach buf.old at (lines (run_rows m)) result buf.new }
{
    let p = run_state::flight_place(m);
    let q = run_state::temperature_place(m);
    let a = put_line(buf, at, b"STATE OF THE RUN");
    let b = put_initialised(buf, a, value(run_state::initialised(m)));
    let c = put_awaited(
        buf,
        b,
        b"       Flight measurement                  ",
        ticks_left(run_state::flight_left(m)),
    );
    let d = put_awaited(
        buf,
        c,
        b"       Temperature measurement             ",
        ticks_left(run_state::temperature_left(m)),
    );
    let e = put_event(buf, d, b"       Event of differences                ", p);
    let f = put_next(buf, e, b"       Next difference                     ", p);
    let g = put_event(buf, f, b"       Event of temperatures               ", q);
    put_next(buf, g, b"       Next temperature                    ", q)
}

fn put_initialised(buf: &mut [u8], at: usize, told: u32) -> usize
    ensures { PutEach buf.old at (ended (initialised_row told)) result buf.new }
{
    if told == 0 {
        return put_line(buf, at, b"       Initialised                         no");
    }
    put_line(buf, at, b"       Initialised                         yes")
}

// The ticks left, or 0.
fn ticks_left(left: Result<Ticks, Refusal>) -> Ticks
    ensures { result.0 ≡ left_ticks left }
{
    left.unwrap_or(Ticks(0))
}

fn put_awaited(buf: &mut [u8], at: usize, label: &[u8], left: Ticks) -> usize
    ensures { PutEach buf.old at (ended (awaited_row label.now left.0)) result buf.new }
{
    let a = numeral::put_text(buf, at, label);
    if left.0 == 0 {
        return put_line(buf, a, b"none awaited");
    }
    let b = numeral::put_text(buf, a, b"awaited, fails in ");
    let c = put_plural(buf, b, left.0, b" tick");
    numeral::put_text(buf, c, b"\n")
}

fn put_place(buf: &mut [u8], at: usize, p: Place) -> usize
    ensures { PutEach buf.old at (place_texts p) result buf.new }
{
    let values = [
        p.started as u32,
        p.planned as u32,
        p.settled as u32,
        p.good as u32,
    ];
    put_form(
        buf,
        at,
        b"#| of |#| started, |#| settled, |#| good|",
        &values,
    )
}

fn put_event_texts(buf: &mut [u8], at: usize, p: Result<Option<Place>, Refusal>) -> usize
    ensures { PutEach buf.old at (event_texts p) result buf.new }
{
    match p {
        Ok(event) => match event {
            Some(place) => put_place(buf, at, place),
            None => numeral::put_text(buf, at, b"none"),
        },
        Err(_) => numeral::put_text(buf, at, b"none"),
    }
}

fn put_event(buf: &mut [u8], at: usize, label: &[u8], p: Result<Option<Place>, Refusal>) -> usize
    ensures { PutEach buf.old at (ended (label.now ∷ event_texts p)) result buf.new }
{
    let a = numeral::put_text(buf, at, label);
    let b = put_event_texts(buf, a, p);
    numeral::put_text(buf, b, b"\n")
}

fn put_wait(buf: &mut [u8], at: usize, n: Ticks) -> usize
    ensures { PutEach buf.old at (wait_texts n.0) result buf.new }
{
    if n.0 == 0 {
        return numeral::put_text(buf, at, b"none");
    }
    let a = numeral::put_text(buf, at, b"in ");
    put_plural(buf, a, n.0, b" tick")
}

fn put_next_texts(buf: &mut [u8], at: usize, p: Result<Option<Place>, Refusal>) -> usize
    ensures { PutEach buf.old at (next_texts p) result buf.new }
{
    match p {
        Ok(event) => match event {
            Some(place) => {
                let a = put_wait(buf, at, place.next);
                put_where(buf, a, place.continuous, b", continuous")
            }
            None => numeral::put_text(buf, at, b"none"),
        },
        Err(_) => numeral::put_text(buf, at, b"none"),
    }
}

fn put_next(buf: &mut [u8], at: usize, label: &[u8], p: Result<Option<Place>, Refusal>) -> usize
    ensures { PutEach buf.old at (ended (label.now ∷ next_texts p)) result buf.new }
{
    let a = numeral::put_text(buf, at, label);
    let b = put_next_texts(buf, a, p);
    numeral::put_text(buf, b, b"\n")
}
