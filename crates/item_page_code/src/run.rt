// The state of the run.
ghost use Rattle.std.specs.Prelude.{◌≡◌};
ghost use Rattle.unit.specs.Choice.{pick};
ghost use Rattle.text.specs.Text.{ended_each};
ghost use Rattle.text.specs.OwnPut.{Puts};
ghost use Rattle.device.specs.Event.{starts_left};
ghost use Rattle.item_page.specs.Page.{awaited_text, event_text, wait_text, next_text, run_rows};

use device::{Model, Schedule};
use item_page_form::put_form;
use schedule::in_event;

pub fn put_run(buf: &mut [u8], at: usize, m: Model) -> usize
    ensures { Puts buf.old at (ended_each (run_rows m)) result buf.new }
{
    let f = m.flight;
    let t = m.temperature;
    let p = f.schedule;
    let q = t.schedule;
    let a = numeral::put_text(
        buf,
        at,
        b"STATE OF THE RUN\n       Initialised                         ",
    );
    let b = put_either(buf, a, m.initialised, b"yes", b"no");
    let c = numeral::put_text(buf, b, b"\n       Flight measurement                  ");
    let d = put_awaited(buf, c, p);
    let e = numeral::put_text(buf, d, b"\n       Temperature measurement             ");
    let g = put_awaited(buf, e, q);
    let h = numeral::put_text(buf, g, b"\n       Event of differences                ");
    let i = put_event(buf, h, p);
    let j = numeral::put_text(buf, i, b"\n       Next difference                     ");
    let k = put_next(buf, j, p);
    let l = numeral::put_text(buf, k, b"\n       Event of temperatures               ");
    let n = put_event(buf, l, q);
    let o = numeral::put_text(buf, n, b"\n       Next temperature                    ");
    let s = put_next(buf, o, q);
    numeral::put_text(buf, s, b"\n")
}

// One of two texts.
pub fn put_either(buf: &mut [u8], at: usize, holds: bool, yes: &[u8], no: &[u8]) -> usize
    ensures { Puts buf.old at (pick holds yes.now no.now) result buf.new }
{
    if holds {
        return numeral::put_text(buf, at, yes);
    }
    numeral::put_text(buf, at, no)
}

fn put_awaited(buf: &mut [u8], at: usize, k: Schedule) -> usize
    ensures { Puts buf.old at (awaited_text k) result buf.new }
{
    let left = k.left;
    if left.0 == 0 {
        return numeral::put_text(buf, at, b"none awaited");
    }
    let values = [left.0];
    put_form(buf, at, b"awaited, fails in |& tick|", &values, 0)
}

fn put_event(buf: &mut [u8], at: usize, k: Schedule) -> usize
    ensures { Puts buf.old at (event_text k) result buf.new }
{
    if in_event(k) {
        let values = [
            k.started as u32,
            k.planned as u32,
            k.settled as u32,
            k.good as u32,
        ];
        return put_form(
            buf,
            at,
            b"#| of |#| started, |#| settled, |#| good|",
            &values,
            0,
        );
    }
    numeral::put_text(buf, at, b"none")
}

// Whether a start is to come.
fn starts_left(k: Schedule) -> bool
    ensures { result ≡ starts_left k }
{
    k.continuous || k.started < k.planned
}

fn put_wait(buf: &mut [u8], at: usize, k: Schedule) -> usize
    ensures { Puts buf.old at (wait_text k) result buf.new }
{
    let wait = k.wait;
    if starts_left(k) {
        let values = [wait.0];
        return put_form(buf, at, b"in |& tick|", &values, 0);
    }
    numeral::put_text(buf, at, b"none")
}

fn put_next(buf: &mut [u8], at: usize, k: Schedule) -> usize
    ensures { Puts buf.old at (next_text k) result buf.new }
{
    if in_event(k) {
        let a = put_wait(buf, at, k);
        if k.continuous {
            return numeral::put_text(buf, a, b", continuous");
        }
        return a;
    }
    numeral::put_text(buf, at, b"none")
}
