// One tick of the clock, the awaited measurements and the events.
ghost use Rattle.std.specs.Prelude.{◌≡◌};
ghost use Rattle.device.specs.Tick.{sum_after, sums_after, flight_ticked, flight_after, temperature_after, clock_ticked, tick_rings, tick_status, tick_model, report_of};

use calendar::Clock;
use device::{Flight, Model, Report, Schedule, Status, Temperature};
use evaluation::words::failed_ports;
use results::failed_flight;
use schedule::{begins, begins_group, fails, tick_schedule};
use status::{alarm_bit, flight_bits, joined, temperature_bits};
use unit::Quanta;

// The sums that the first start of a group sets to 0.
fn sum_after(f: Flight) -> Quanta
    ensures { result ≡ sum_after f }
{
    if begins_group(f.schedule) {
        Quanta(0)
    } else {
        f.sum
    }
}

fn sums_after(t: Temperature) -> [Quanta; 4]
    ensures { result ≡ sums_after t }
{
    if begins_group(t.schedule) {
        [Quanta(0); 4]
    } else {
        t.sums
    }
}

fn flight_ticked(f: Flight) -> Flight
    ensures { result ≡ flight_ticked f }
{
    Flight {
        schedule: tick_schedule(f.schedule),
        sum: sum_after(f),
        ..f
    }
}

fn flight_after(f: Flight) -> Flight
    ensures { result ≡ flight_after f }
{
    let n = flight_ticked(f);
    if fails(f.schedule) {
        failed_flight(n, n.schedule)
    } else {
        n
    }
}

fn temperature_after(t: Temperature) -> Temperature
    ensures { result ≡ temperature_after t }
{
    Temperature {
        schedule: tick_schedule(t.schedule),
        sums: sums_after(t),
        ports: if fails(t.schedule) {
            failed_ports()
        } else {
            t.ports
        },
    }
}

fn clock_ticked(m: Model) -> Clock
    ensures { result ≡ clock_ticked m }
{
    if setup::clock_stands(m.setup) {
        m.clock
    } else {
        clock::step::tick_clock(m.clock)
    }
}

fn tick_rings(m: Model, after: Clock) -> bool
    ensures { result ≡ tick_rings m after }
{
    let w = setup::alarm_word(m.setup);
    clock::alarm::alarm_rings(m.clock, after, w, setup::alarm_mode(m.setup))
}

fn tick_status(m: Model, after: Clock) -> Status
    ensures { result ≡ tick_status m after }
{
    let f = m.flight.schedule;
    let t = m.temperature.schedule;
    let each = setup::each_interrupt(m.setup);
    let f_failed = fails(f);
    let t_failed = fails(t);
    let with_alarm = joined(m.status, alarm_bit(tick_rings(m, after)));
    let with_flight = joined(with_alarm, flight_bits(f, each, f_failed, f_failed));
    joined(with_flight, temperature_bits(t, each, t_failed, t_failed))
}

pub fn tick_model(m: Model) -> Model
    ensures { result ≡ tick_model m }
{
    // Fields set by hand: a struct update copies the model once more in each call of a list.
    let mut n = m;
    n.clock = clock_ticked(m);
    n.status = tick_status(m, n.clock);
    n.flight = flight_after(m.flight);
    n.temperature = temperature_after(m.temperature);
    n
}

// What the next tick reports of a kind.
pub fn report_of(k: Schedule) -> Report
    ensures { result ≡ report_of k }
{
    Report {
        started: begins(k),
        failed: fails(k),
    }
}
