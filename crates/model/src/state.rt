// The fresh model, soundness, and what is busy.
ghost use Rattle.std.specs.Prelude.{◌≡◌, ◌≤◌, ◌*◌};
ghost use Rattle.device.specs.Model.{no_flight, no_temperature, fresh_with, flight_sound, temperature_sound, sum_fits, is_sound, kind_busy, is_busy};

use device::{Flight, Model, Schedule, Status, Temperature};
use schedule::{in_event, is_awaited, no_schedule, schedule_sound};
use unit::Quanta;

pub fn no_flight() -> Flight
    ensures { result ≡ no_flight }
{
    Flight {
        schedule: no_schedule(),
        up: false,
        down: false,
        sum: Quanta(0),
        ups: [0; 7],
        downs: [0; 7],
        difference: 0,
    }
}

pub fn no_temperature() -> Temperature
    ensures { result ≡ no_temperature }
{
    Temperature {
        schedule: no_schedule(),
        sums: [Quanta(0); 4],
        ports: [0; 4],
    }
}

pub fn fresh_with(status: Status) -> Model
    ensures { result ≡ fresh_with status }
{
    Model {
        clock: clock::date::start(),
        setup: setup::factory(),
        status,
        initialised: false,
        regulator: false,
        flight: no_flight(),
        temperature: no_temperature(),
    }
}

// Whether a sum of so many values below the largest one fits.
fn sum_fits(sum: Quanta, good: u16, most: Quanta) -> bool
    requires { most.0 ≤ 4294967296 }
    ensures { result ≡ sum_fits sum good most }
{
    sum.0 <= u64::from(good) * most.0
}

fn flight_sound(f: Flight) -> bool
    ensures { result ≡ flight_sound f }
{
    schedule_sound(f.schedule) && sum_fits(f.sum, f.schedule.good, Quanta(4294967296))
}

fn temperature_sound(t: Temperature) -> bool
    ensures { result ≡ temperature_sound t }
{
    let good = t.schedule.good;
    schedule_sound(t.schedule)
        && t.sums
            .iter()
            .all(|sum| sum_fits(*sum, good, Quanta(2147483648)))
}

pub fn is_sound(m: Model) -> bool
    ensures { result ≡ is_sound m }
{
    clock::date::clock_valid(m.clock)
        && clock::words::alarm_valid(setup::alarm_word(m.setup))
        && flight_sound(m.flight)
        && temperature_sound(m.temperature)
}

fn kind_busy(k: Schedule) -> bool
    ensures { result ≡ kind_busy k }
{
    is_awaited(k) || in_event(k)
}

// Whether a measurement is awaited or an event runs.
pub fn is_busy(m: Model) -> bool
    ensures { result ≡ is_busy m }
{
    kind_busy(m.flight.schedule) || kind_busy(m.temperature.schedule)
}
