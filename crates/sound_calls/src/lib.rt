// Ticks and deliveries on a model that is known to be sound. They take any input; a refusal changes nothing.
#![tactic(auto)]

ghost use Rattle.std.specs.Prelude.{◌≡◌, true, ◌≤◌};
ghost use Rattle.device.specs.Model.{is_sound};
ghost use Rattle.device.specs.StretchSteps.{quiet_for};
ghost use Rattle.device.specs.Call.{Call};
ghost use Rattle.device.specs.Reply.{reply};

use delivery::{flight_miscounted, flight_reply, temperature_reply};
use device::{Answer, Model, Reply, Report};
use model::reply::refuse;
use refusal::Refusal;
use schedule::is_awaited;
use ticking::stretch::{LONGEST, next_is_quiet, quiet_tick};
use ticking::tick::{report_of, tick_model};
use unit::Ticks;

// One period of the 32,768 Hz clock.
pub fn sound_tick(m: Model) -> Reply
    requires { is_sound m ≡ true }
    ensures { result ≡ reply m Call.tick }
{
    if next_is_quiet(m) {
        quiet_reply(m)
    } else {
        tick_reply(m)
    }
}

// Nothing happens in it.
fn quiet_reply(m: Model) -> Reply
    requires { (is_sound m ≡ true) × (1 ≤ quiet_for m) }
    ensures { result ≡ reply m Call.tick }
{
    let none = Report {
        started: false,
        failed: false,
    };
    Reply {
        answer: Answer::Ticked(none, none),
        model: quiet_tick(m),
    }
}

// Whatever happens in it.
pub fn tick_reply(m: Model) -> Reply
    requires { is_sound m ≡ true }
    ensures { result ≡ reply m Call.tick }
{
    Reply {
        answer: Answer::Ticked(
            report_of(m.flight.schedule),
            report_of(m.temperature.schedule),
        ),
        model: tick_model(m),
    }
}

// n such periods at once, at most 16,384.
pub fn sound_stretch(m: Model, n: Ticks) -> Reply
    requires { is_sound m ≡ true }
    ensures { result ≡ reply m (Call.stretch n.0) }
{
    if LONGEST.0 < n.0 {
        return refuse(m, Refusal::Span);
    }
    let end = ticking::stretch::run(m, n);
    Reply {
        answer: Answer::Stretched(end.flight, end.temperature),
        model: end.model,
    }
}

// The hit words of an awaited flight measurement: the up list and the down list.
pub fn sound_flight_delivery(m: Model, up: &[u32], down: &[u32]) -> Reply
    requires { is_sound m ≡ true }
    ensures { result ≡ reply m (Call.flight up.now down.now) }
{
    if !is_awaited(m.flight.schedule) {
        refuse(m, Refusal::NotAwaited)
    } else if flight_miscounted(m.flight, setup::hit_count(m.setup), up.len(), down.len()) {
        refuse(m, Refusal::WordCount)
    } else {
        flight_reply(m, up, down)
    }
}

// The words of an awaited temperature measurement, T1 to T4.
pub fn sound_temperature_delivery(m: Model, words: &[u32]) -> Reply
    requires { is_sound m ≡ true }
    ensures { result ≡ reply m (Call.temperature words.now) }
{
    if !is_awaited(m.temperature.schedule) {
        refuse(m, Refusal::NotAwaited)
    } else if words.len() != 4 {
        refuse(m, Refusal::WordCount)
    } else {
        temperature_reply(m, words)
    }
}
