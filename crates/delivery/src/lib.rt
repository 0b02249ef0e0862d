// Delivered hit words of an awaited measurement.
#![tactic(auto)]

ghost use Rattle.std.specs.Prelude.{◌≡◌, true, ◌<◌, ◌*◌};
ghost use Rattle.hit.specs.Words.{six_total};
ghost use Rattle.device.specs.Model.{is_sound, flight_sound, temperature_sound};
ghost use Rattle.device.specs.Parts.{flight_fits, flight_reply, temperature_reply};
ghost use Rattle.device.specs.Delivery.{flight_miscounted, flight_status, temperature_status, failed_flight_model, good_flight_model, same_count, failed_temperature_model, good_temperature_model};

use device::{Answer, Flight, Model, Reply, Status, Temperature};
use evaluation::limit::{any_below, any_from, late_from, open_from, short_below};
use evaluation::words::{four_words, port_pairs, six_words};
use results::{failed_flight, good_flight, good_sums};
use schedule::settle;
use status::{flight_bits, joined, temperature_bits};
use unit::Quanta;

fn same_count(measured: bool, hits: u32, given: usize) -> bool
    ensures { result ≡ same_count measured hits given }
{
    given == if measured { hits as usize } else { 0 }
}

// Whether a list is not as long as its direction asks.
pub fn flight_miscounted(f: Flight, hits: u32, ups: usize, downs: usize) -> bool
    ensures { result ≡ flight_miscounted f hits ups downs }
{
    !(same_count(f.up, hits, ups) && same_count(f.down, hits, downs))
}

fn flight_status(m: Model, failed: bool) -> Status
    ensures { result ≡ flight_status m failed }
{
    let each = setup::each_interrupt(m.setup);
    joined(m.status, flight_bits(m.flight.schedule, each, true, failed))
}

// The model after a flight delivery of the right counts.
fn failed_flight_model(m: Model) -> Model
    requires { flight_sound m.flight ≡ true }
    ensures { result ≡ failed_flight_model m }
{
    Model {
        status: flight_status(m, true),
        flight: failed_flight(m.flight, settle(m.flight.schedule, false)),
        ..m
    }
}

fn good_flight_model(m: Model, hits: u32, ups: [u32; 6], downs: [u32; 6]) -> Model
    requires { (six_total ups < hits * 2147483648) × (six_total downs < hits * 2147483648) × (flight_sound m.flight ≡ true) }
    ensures { result ≡ good_flight_model m hits ups downs }
{
    Model {
        status: flight_status(m, false),
        flight: good_flight(m.flight, hits, ups, downs),
        ..m
    }
}

fn temperature_status(m: Model, opened: bool) -> Status
    ensures { result ≡ temperature_status m opened }
{
    let each = setup::each_interrupt(m.setup);
    joined(
        m.status,
        temperature_bits(m.temperature.schedule, each, true, opened),
    )
}

// A port is open or short; `opened` says whether one is open.
fn failed_temperature_model(m: Model, limit: Quanta, opened: bool, w: [u32; 4]) -> Model
    requires { temperature_sound m.temperature ≡ true }
    ensures { result ≡ failed_temperature_model m limit opened w }
{
    Model {
        status: temperature_status(m, opened),
        temperature: Temperature {
            schedule: settle(m.temperature.schedule, false),
            ports: port_pairs(limit, w),
            ..m.temperature
        },
        ..m
    }
}

fn good_temperature_model(m: Model, w: [u32; 4]) -> Model
    requires { temperature_sound m.temperature ≡ true }
    ensures { result ≡ good_temperature_model m w }
{
    Model {
        status: temperature_status(m, false),
        temperature: Temperature {
            schedule: settle(m.temperature.schedule, true),
            sums: good_sums(m.temperature, w),
            ports: w,
        },
        ..m
    }
}

// A flight delivery of the right counts.
pub fn flight_reply(m: Model, up: &[u32], down: &[u32]) -> Reply
    requires { flight_fits m up.now down.now ≡ true }
    ensures { result ≡ flight_reply m up.now down.now }
{
    let limit = late_from(setup::timeout(m.setup));
    if any_from(limit, up) || any_from(limit, down) {
        return Reply {
            answer: Answer::Failed,
            model: failed_flight_model(m),
        };
    }
    let hits = setup::hit_count(m.setup);
    Reply {
        answer: Answer::Good,
        model: good_flight_model(m, hits, six_words(up), six_words(down)),
    }
}

// A temperature delivery of four words.
pub fn temperature_reply(m: Model, words: &[u32]) -> Reply
    requires { is_sound m ≡ true }
    ensures { result ≡ temperature_reply m words.now }
{
    let limit = open_from(setup::port_cycle(m.setup));
    let w = four_words(words);
    let opened = any_from(limit, words);
    if opened || any_below(short_below(), words) {
        return Reply {
            answer: Answer::Failed,
            model: failed_temperature_model(m, limit, opened, w),
        };
    }
    Reply {
        answer: Answer::Good,
        model: good_temperature_model(m, w),
    }
}
