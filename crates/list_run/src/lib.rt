// The code of `call_list`: a list of calls, done one after the other on one model. It is what the library's single calls do, with the
// model loaded and stored once.
#![tactic(auto)]

ghost use Rattle.std.specs.Prelude.{true, ◌≡◌, ◌+◌, ◌*◌, ◌/◌, ◌<◌, ◌≤◌, length, get_or};
ghost use Rattle.device.specs.Model.{is_sound};
ghost use Rattle.device.specs.Call.{Call};
ghost use Rattle.device.specs.StretchSteps.{quiet_for};
ghost use Rattle.device.specs.Reply.{reply, output, memory};
ghost use Rattle.call_list.specs.CallList.{answers_after, beginning, entry_at, entry_fits, part, place_after, runs, within};
ghost use Rattle.list_run.specs.Room.{AllTicks, Moved, Near, Room, Told, quiet_answers, quiet_progress};

use bus::sound_transaction;
use call_list::{Entry, Place, Progress};
use device::{Answer, Model, Reply, Report};
use model::reply::refuse;
use model::state::is_sound;
use outcome::put_answer;
use refusal::Refusal;
use sound_calls::{sound_flight_delivery, sound_stretch, sound_temperature_delivery, tick_reply};
use ticking::stretch::{quiet_for, quiet_ticks};
use unit::Ticks;

// The kinds of a list's calls.
const TRANSACTION: u32 = 0;

const TICK: u32 = 1;

const STRETCH: u32 = 2;

const FLIGHT: u32 = 3;

const TEMPERATURE: u32 = 4;

fn entry_at(calls: &[u32], k: usize) -> Entry
    requires { 3 * k + 3 ≤ length calls.now }
    ensures { result ≡ entry_at calls.now k }
{
    let at = 3 * k;
    Entry {
        kind: calls[at],
        first: calls[at + 1],
        second: calls[at + 2],
    }
}

fn entry_fits(e: Entry, frames: usize, hits: usize, out: usize) -> bool
    ensures { result ≡ entry_fits e frames hits out }
{
    let first = e.first as usize;
    let second = e.second as usize;
    if e.kind == TRANSACTION {
        if first <= frames {
            return second <= out;
        }
        return false;
    }
    if e.kind == FLIGHT {
        if first <= hits {
            return second <= hits - first;
        }
        return false;
    }
    if e.kind == TEMPERATURE {
        return first <= hits;
    }
    if e.kind == TICK {
        return true;
    }
    e.kind == STRETCH
}

fn transact(m: Model, e: Entry, p: Place, frames: &[u8], out: &mut [u8], flash: &mut [u8]) -> Reply
    requires { (is_sound m ≡ true) × (p.frames + e.first ≤ length frames.now) × (p.output + e.second ≤ length out.old) }
    ensures { (result ≡ reply m (Call.transaction (part p.frames e.first frames.now) (part p.output e.second out.old) flash.old)) × (out.new ≡ within p.output e.second out.old (output m (Call.transaction (part p.frames e.first frames.now) (part p.output e.second out.old) flash.old))) × (flash.new ≡ memory m (Call.transaction (part p.frames e.first frames.now) (part p.output e.second out.old) flash.old)) }
{
    let from = p.output;
    let to = from + e.second as usize;
    let start = p.frames;
    let end = start + e.first as usize;
    sound_transaction(m, &frames[start..end], &mut out[from..to], flash)
}

fn deliver_flight(m: Model, e: Entry, p: Place, hits: &[u32]) -> Reply
    requires { (is_sound m ≡ true) × (p.hits + e.first + e.second ≤ length hits.now) }
    ensures { result ≡ reply m (Call.flight (part p.hits e.first hits.now) (part (p.hits + e.first) e.second hits.now)) }
{
    let start = p.hits;
    let cut = start + e.first as usize;
    let end = cut + e.second as usize;
    sound_flight_delivery(m, &hits[start..cut], &hits[cut..end])
}

fn deliver_temperature(m: Model, e: Entry, p: Place, hits: &[u32]) -> Reply
    requires { (is_sound m ≡ true) × (p.hits + e.first ≤ length hits.now) }
    ensures { result ≡ reply m (Call.temperature (part p.hits e.first hits.now)) }
{
    let start = p.hits;
    let end = start + e.first as usize;
    sound_temperature_delivery(m, &hits[start..end])
}

fn place_after(e: Entry, p: Place) -> Place
    requires { (p.calls < 9223372036854775808) × (p.frames < 9223372036854775808) × (p.hits < 9223372036854775808) × (p.output < 9223372036854775808) }
    ensures { result ≡ place_after e p }
{
    let first = e.first as usize;
    let second = e.second as usize;
    let calls = p.calls + 1;
    if e.kind == TRANSACTION {
        return Place {
            calls,
            frames: p.frames + first,
            output: p.output + second,
            ..p
        };
    }
    if e.kind == FLIGHT {
        return Place {
            calls,
            hits: p.hits + first + second,
            ..p
        };
    }
    if e.kind == TEMPERATURE {
        return Place {
            calls,
            hits: p.hits + first,
            ..p
        };
    }
    Place { calls, ..p }
}

// A call's answer, in five words of the answers.
fn tell(a: Answer, at: usize, answers: &mut [u32])
    requires { at + 5 ≤ length answers.old }
    ensures { answers.new ≡ answers_after a at answers.old }
{
    let from = at + 1;
    let to = at + 5;
    let code = put_answer(a, &mut answers[from..to]);
    answers[at] = code;
}

// A call's answer is told, and the places move on.
fn settle(e: Entry, place: Place, r: Reply, answers: &mut [u32]) -> Progress
    requires { Near place (length answers.old) }
    ensures { (result ≡ record { model = r.model; place = place_after e place }) × (answers.new ≡ answers_after r.answer (5 * place.calls) answers.old) }
{
    let a = r.answer;
    tell(a, 5 * place.calls, answers);
    let model = r.model;
    let place = place_after(e, place);
    Progress { model, place }
}

// One call of each kind, on a sound model. Each is a function of its own, so that the compiler joins what they leave in one place
// only, the head of the list's loop.
fn frame_call(
    p: Progress,
    e: Entry,
    frames: &[u8],
    out: &mut [u8],
    flash: &mut [u8],
    answers: &mut [u32],
) -> Progress
    requires { (is_sound p.model ≡ true) × Near p.place (length answers.old) × (p.place.frames + e.first ≤ length frames.now) × (p.place.output + e.second ≤ length out.old) }
    ensures { Told e (Call.transaction (part p.place.frames e.first frames.now) (part p.place.output e.second out.old) flash.old) p result answers.old answers.new × (out.new ≡ within p.place.output e.second out.old (output p.model (Call.transaction (part p.place.frames e.first frames.now) (part p.place.output e.second out.old) flash.old))) × (flash.new ≡ memory p.model (Call.transaction (part p.place.frames e.first frames.now) (part p.place.output e.second out.old) flash.old)) }
{
    let place = p.place;
    let r = transact(p.model, e, place, frames, out, flash);
    settle(e, place, r, answers)
}

fn tick_call(p: Progress, e: Entry, answers: &mut [u32]) -> Progress
    requires { (is_sound p.model ≡ true) × Near p.place (length answers.old) }
    ensures { Told e Call.tick p result answers.old answers.new }
{
    let place = p.place;
    let r = tick_reply(p.model);
    settle(e, place, r, answers)
}

fn stretch_call(p: Progress, e: Entry, answers: &mut [u32]) -> Progress
    requires { (is_sound p.model ≡ true) × Near p.place (length answers.old) }
    ensures { Told e (Call.stretch e.first) p result answers.old answers.new }
{
    let place = p.place;
    let r = sound_stretch(p.model, Ticks(e.first));
    settle(e, place, r, answers)
}

fn flight_call(p: Progress, e: Entry, hits: &[u32], answers: &mut [u32]) -> Progress
    requires { (is_sound p.model ≡ true) × Near p.place (length answers.old) × (p.place.hits + e.first + e.second ≤ length hits.now) }
    ensures { Told e (Call.flight (part p.place.hits e.first hits.now) (part (p.place.hits + e.first) e.second hits.now)) p result answers.old answers.new }
{
    let place = p.place;
    let r = deliver_flight(p.model, e, place, hits);
    settle(e, place, r, answers)
}

fn temperature_call(p: Progress, e: Entry, hits: &[u32], answers: &mut [u32]) -> Progress
    requires { (is_sound p.model ≡ true) × Near p.place (length answers.old) × (p.place.hits + e.first ≤ length hits.now) }
    ensures { Told e (Call.temperature (part p.place.hits e.first hits.now)) p result answers.old answers.new }
{
    let place = p.place;
    let r = deliver_temperature(p.model, e, place, hits);
    settle(e, place, r, answers)
}

// Any call, on a model that is not sound.
fn unsound_call(p: Progress, e: Entry, answers: &mut [u32]) -> Progress
    requires { Near p.place (length answers.old) }
    ensures { (result ≡ record { model = p.model; place = place_after e p.place }) × (answers.new ≡ answers_after (Answer.Refused Refusal.NotSound) (5 * p.place.calls) answers.old) }
{
    let place = p.place;
    let r = refuse(p.model, Refusal::NotSound);
    settle(e, place, r, answers)
}

// q, or the room where that is less.
// No `min`: the two numbers have two types.
fn fewer(room: usize, q: u32) -> u32
    requires { (1 ≤ room) × (1 ≤ q) }
    ensures { (1 ≤ result) × (result ≤ room) × (result ≤ q) }
{
    if room < q as usize { room as u32 } else { q }
}

// How many calls from k on are ticks, `most` at most; k is one.
fn ticks_ahead(calls: &[u32], k: usize, most: u32) -> u32
    requires { (1 ≤ most) × (3 * (k + most) ≤ length calls.now) × (get_or calls.now (3 * k) 0 ≡ 1) }
    ensures { (1 ≤ result) × (result ≤ most) × AllTicks calls.now k result }
{
    for n in 1..most {
        if calls[3 * (k + n as usize)] != TICK {
            return n;
        }
    }
    most
}

// How many of them, q at most, have room for their answers too.
fn quiet_ahead(calls: &[u32], k: usize, q: u32, answers: usize) -> u32
    requires { (1 ≤ q) × (k < length calls.now / 3) × (5 * k + 5 ≤ answers) × (get_or calls.now (3 * k) 0 ≡ 1) }
    ensures { (1 ≤ result) × (result ≤ q) × (k + result ≤ length calls.now / 3) × (5 * (k + result) ≤ answers) × AllTicks calls.now k result }
{
    let end = (calls.len() / 3).min(answers / 5);
    ticks_ahead(calls, k, fewer(end - k, q))
}

fn tell_quiet(k: usize, n: u32, answers: &mut [u32])
    requires { 5 * (k + n) ≤ length answers.old }
    ensures { answers.new ≡ quiet_answers n k answers.old }
{
    let none = Report {
        started: false,
        failed: false,
    };
    let a = Answer::Ticked(none, none);
    for i in 0..n {
        tell(a, 5 * (k + i as usize), answers);
    }
}

// n ticks in which nothing happens, at once: the most frequent call, so that the model is moved on once for all of them.
fn quiet(p: Progress, n: u32, answers: &mut [u32]) -> Progress
    requires { (n ≤ quiet_for p.model) × (5 * (p.place.calls + n) ≤ length answers.old) }
    ensures { (result ≡ quiet_progress n p) × (answers.new ≡ quiet_answers n p.place.calls answers.old) }
{
    let place = p.place;
    tell_quiet(place.calls, n, answers);
    let model = quiet_ticks(p.model, Ticks(n));
    let calls = place.calls + n as usize;
    Progress {
        model,
        place: Place { calls, ..place },
    }
}

// One call that fits, or several ticks in which nothing happens.
fn advance(
    sound: bool,
    p: Progress,
    e: Entry,
    calls: &[u32],
    frames: &[u8],
    hits: &[u32],
    out: &mut [u8],
    flash: &mut [u8],
    answers: &mut [u32],
) -> Progress
    requires { (sound ≡ is_sound p.model) × Room e p.place (length frames.now) (length hits.now) (length out.old) (length answers.old) × (p.place.calls < length calls.now / 3) × (e ≡ entry_at calls.now p.place.calls) }
    ensures { Moved calls.now frames.now hits.now record { progress = p; output = out.old; flash = flash.old; answers = answers.old } record { progress = result; output = out.new; flash = flash.new; answers = answers.new } }
{
    if sound {
        let place = p.place;
        if e.kind == TRANSACTION {
            return frame_call(p, e, frames, out, flash, answers);
        }
        if e.kind == TICK {
            let q = quiet_for(p.model);
            if 0 < q.0 {
                let n = quiet_ahead(calls, place.calls, q.0, answers.len());
                return quiet(p, n, answers);
            }
            return tick_call(p, e, answers);
        }
        if e.kind == STRETCH {
            return stretch_call(p, e, answers);
        }
        if e.kind == FLIGHT {
            return flight_call(p, e, hits, answers);
        }
        return temperature_call(p, e, hits, answers);
    }
    unsound_call(p, e, answers)
}

fn begin(m: Model) -> Progress
    ensures { result ≡ beginning m }
{
    let place = Place {
        calls: 0,
        frames: 0,
        hits: 0,
        output: 0,
    };
    Progress { model: m, place }
}

// The calls of a list, three words each, up to the first that does not fit.
pub fn run(
    m: Model,
    calls: &[u32],
    frames: &[u8],
    hits: &[u32],
    out: &mut [u8],
    flash: &mut [u8],
    answers: &mut [u32],
) -> Progress
    ensures { record { progress = result; output = out.new; flash = flash.new; answers = answers.new } ≡ runs (length calls.now / 3) calls.now frames.now hits.now record { progress = beginning m; output = out.old; flash = flash.old; answers = answers.old } }
{
    // the calls that have room for an answer
    let n = (calls.len() / 3).min(answers.len() / 5);
    let sound = is_sound(m);
    let mut p = begin(m);
    // Kept as a while: a step does one call, or several ticks at once.
    while p.place.calls < n {
        let place = p.place;
        let e = entry_at(calls, place.calls);
        let frames_left = frames.len() - place.frames;
        let hits_left = hits.len() - place.hits;
        if entry_fits(e, frames_left, hits_left, out.len() - place.output) {
            p = advance(sound, p, e, calls, frames, hits, out, flash, answers);
        } else {
            return p;
        }
    }
    p
}
