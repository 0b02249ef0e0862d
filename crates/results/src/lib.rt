// What a good and a failed measurement leave in the results of its kind.
#![tactic(auto)]

ghost use Rattle.std.specs.Prelude.{◌≡◌, true, ◌<◌, ◌*◌};
ghost use Rattle.hit.specs.Words.{six_total};
ghost use Rattle.device.specs.Model.{flight_sound, temperature_sound};
ghost use Rattle.device.specs.Results.{failed_flight, failed_difference};
ghost use Rattle.device.specs.Results.{good_difference, good_sum, good_flight, good_sums};

use device::{Flight, Schedule, Temperature};
use evaluation::difference::{biased, difference_word};
use evaluation::words::{average, choose_pairs, failed_pairs, filled, plus_each};
use schedule::settle;
use unit::Quanta;

fn failed_difference(f: Flight) -> u32
    ensures { result ≡ failed_difference f }
{
    if f.up && f.down {
        0xffffffff
    } else {
        f.difference
    }
}

// The results of a failed measurement.
pub fn failed_flight(f: Flight, schedule: Schedule) -> Flight
    ensures { result ≡ failed_flight f schedule }
{
    Flight {
        schedule,
        ups: choose_pairs(f.up, failed_pairs(), f.ups),
        downs: choose_pairs(f.down, failed_pairs(), f.downs),
        difference: failed_difference(f),
        ..f
    }
}

fn good_difference(f: Flight, up: Quanta, down: Quanta) -> u32
    requires { (up.0 < 2147483648) × (down.0 < 2147483648) }
    ensures { result ≡ good_difference f up down }
{
    if f.up && f.down {
        difference_word(up, down)
    } else {
        f.difference
    }
}

// The sum of differences after a good measurement: one of an event counts.
fn good_sum(f: Flight, up: Quanta, down: Quanta) -> Quanta
    requires { (up.0 < 2147483648) × (down.0 < 2147483648) × (flight_sound f ≡ true) }
    ensures { result ≡ good_sum f up down }
{
    if f.schedule.settled < f.schedule.planned {
        Quanta(f.sum.0 + biased(up, down).0)
    } else {
        f.sum
    }
}

// The flight results after good hits: so many words of each measured direction, and 0 past them.
pub fn good_flight(f: Flight, hits: u32, ups: [u32; 6], downs: [u32; 6]) -> Flight
    requires { (six_total ups < hits * 2147483648) × (six_total downs < hits * 2147483648) × (flight_sound f ≡ true) }
    ensures { result ≡ good_flight f hits ups downs }
{
    let up = average(ups, hits);
    let down = average(downs, hits);
    Flight {
        schedule: settle(f.schedule, true),
        sum: good_sum(f, up, down),
        ups: choose_pairs(f.up, filled(ups, up), f.ups),
        downs: choose_pairs(f.down, filled(downs, down), f.downs),
        difference: good_difference(f, up, down),
        ..f
    }
}

pub fn good_sums(t: Temperature, w: [u32; 4]) -> [Quanta; 4]
    requires { temperature_sound t ≡ true }
    ensures { result ≡ good_sums t w }
{
    if t.schedule.settled < t.schedule.planned {
        plus_each(t.sums, w)
    } else {
        t.sums
    }
}
