// The answer of a line of ticks, held against the words that the line expects.
ghost use Rattle.std.specs.Prelude.{◌≡◌, true, ◌∷◌, ◌++◌, ◌+◌, ◌≤◌, ◌<◌, ltb, length};
ghost use Rattle.unit.specs.Choice.{either, both};
ghost use Rattle.numeral.specs.Print.{decimal};
ghost use Rattle.device.specs.Model.{is_sound};
ghost use Rattle.text.specs.Text.{fits as Text·fits};
ghost use Rattle.item_ticks_code.specs.OwnHeld.{ExpectedFrom, HeldAgainst, word_where, report_words, Judged};

use crate::Held;
use crate::moving::move_on;
use device::{Model, Report};
use text_code::{fits, next_word};
use unit::Ticks;

// Whether the answer of n ticks, the first of them tick `next`, differs from the words that are expected after the line's first. The ticks
// are run no farther than it takes to tell.
pub fn ticks_differ(m: Model, n: Ticks, next: u64, number: Ticks, expected: &[u8]) -> bool
    requires { (is_sound m ≡ true) × (next + n.0 < 9223372036854775808) }
    ensures { Judged number.0 n.0 next m expected.now result }
{
    let first = expect_from(expected, 0, false);
    let mut h = hold(first, expected, b"", number.0 as u64);
    let mut model = m;
    let mut left = n;
    let mut i = next;
    // A while: each turn takes as many ticks as nothing happens in, and no index counts them.
    while goes_on(left, h) {
        let moved = move_on(model, left);
        let later = i + unit::wide(moved.ran.0);
        h = hold_reports(h, expected, moved.flight, moved.temperature, later - 1);
        model = moved.model;
        left = Ticks(left.0 - moved.ran.0);
        i = later;
    }
    differs_at_end(h)
}

// Whether a tick is left, and a word that is expected.
fn goes_on(left: Ticks, h: Held) -> bool
    ensures { result ≡ both (ltb 0 left.0) (ltb h.start h.end) }
{
    0 < left.0 && h.start < h.end
}

fn differs_at_end(h: Held) -> bool
    ensures { result ≡ either h.differs (ltb h.start h.end) }
{
    h.differs || h.start < h.end
}

// The words from a place on.
fn expect_from(expected: &[u8], at: usize, differs: bool) -> Held
    requires { at ≤ length expected.now }
    ensures { ExpectedFrom expected.now at differs result }
{
    let word = next_word(expected, at);
    Held {
        start: word.start,
        end: word.end,
        differs,
    }
}

// What tick i reported, in order.
fn hold_reports(h: Held, expected: &[u8], flight: Report, temperature: Report, i: u64) -> Held
    requires { h.end ≤ length expected.now }
    ensures { HeldAgainst expected.now h (report_words flight temperature i) result }
{
    let a = hold_where(h, expected, flight.failed, b"failed-flight@", i);
    let b = hold_where(a, expected, flight.started, b"started-flight@", i);
    let c = hold_where(b, expected, temperature.failed, b"failed-temperature@", i);
    hold_where(c, expected, temperature.started, b"started-temperature@", i)
}

fn hold_where(h: Held, expected: &[u8], happened: bool, what: &[u8], i: u64) -> Held
    requires { (h.end ≤ length expected.now) × (length what.now ≤ 24) }
    ensures { HeldAgainst expected.now h (word_where happened (what.now ++ decimal i)) result }
{
    if happened {
        return hold(h, expected, what, i);
    }
    h
}

// The word of a text and a number.
fn hold(h: Held, expected: &[u8], what: &[u8], i: u64) -> Held
    requires { (h.end ≤ length expected.now) × (length what.now ≤ 24) }
    ensures { HeldAgainst expected.now h (λ ws. (what.now ++ decimal i) ∷ ws) result }
{
    if h.end <= h.start {
        return h;
    }
    if word_fits(&expected[h.start..h.end], what, i) {
        return expect_from(expected, h.end, h.differs);
    }
    Held {
        start: 0,
        end: 0,
        differs: true,
    }
}

fn word_fits(wanted: &[u8], what: &[u8], i: u64) -> bool
    requires { length what.now ≤ 24 }
    ensures { result ≡ Text·fits wanted.now (what.now ++ decimal i) }
{
    let mut word = [0u8; 48];
    let middle = numeral::put_text(&mut word, 0, what);
    let end = numeral::put_decimal(&mut word, middle, i);
    fits(wanted, &word[..end])
}
