// The commands: what stands in their way, and the model after each.
#![tactic(auto)]

ghost use Rattle.std.specs.Prelude.{◌≡◌};
ghost use Rattle.device.specs.Bus.{must_be_idle, starts_flight, starts_temperature, is_event, command_busy, before_initialize, command_unset, flight_started, flight_event, temperature_event, started_event, initialised_model, halted_model, run_model, event_flight, event_side_unset, event_temperature, flight_side_unset, single_started, supplied, unsupplied, temperature_side_unset};

use device::{Flight, Model, Temperature};
use frame::opcode::{
    EVTMG1, EVTMG2, EVTMG3, HALT, INITIALIZE, LDO_OFF, LDO_ON, RESET, TEMPERATURE, TOF_DOWN, TOF_UP,
};
use model::state::{fresh_with, is_busy};
use schedule::{halt_schedule, start_event, start_single};
use status::{halt_bit, init_bit, joined, ldo_bit, no_bits, without_ldo};
use unit::Quanta;

fn must_be_idle(op: u32) -> bool
    ensures { result ≡ must_be_idle op }
{
    op != RESET && op != HALT
}

pub fn starts_flight(op: u32) -> bool
    ensures { result ≡ starts_flight op }
{
    // Tests one by one: with `||` the compiler does not join them with the tests of the commands, and a list's starts cost more.
    if op < TEMPERATURE {
        return true;
    }
    if op == EVTMG1 {
        return true;
    }
    if op == EVTMG2 { true } else { false }
}

pub fn starts_temperature(op: u32) -> bool
    ensures { result ≡ starts_temperature op }
{
    // Tests one by one, as above.
    if op == TEMPERATURE {
        return true;
    }
    if op == EVTMG1 {
        return true;
    }
    if op == EVTMG3 { true } else { false }
}

fn is_event(op: u32) -> bool
    ensures { result ≡ is_event op }
{
    (EVTMG1..=EVTMG3).contains(&op)
}

pub fn command_busy(m: Model, op: u32) -> bool
    ensures { result ≡ command_busy m op }
{
    must_be_idle(op) && is_busy(m)
}

pub fn before_initialize(m: Model, op: u32) -> bool
    ensures { result ≡ before_initialize m op }
{
    !m.initialised && (starts_flight(op) || starts_temperature(op))
}

fn flight_side_unset(setup: [u16; 16], op: u32) -> bool
    ensures { result ≡ flight_side_unset setup op }
{
    starts_flight(op) && setup::flight_unset(setup)
}

fn temperature_side_unset(setup: [u16; 16], op: u32) -> bool
    ensures { result ≡ temperature_side_unset setup op }
{
    starts_temperature(op) && setup::temperature_unset(setup)
}

fn event_side_unset(setup: [u16; 16], op: u32) -> bool
    ensures { result ≡ event_side_unset setup op }
{
    is_event(op) && setup::clock_stands(setup)
}

pub fn command_unset(m: Model, op: u32) -> bool
    ensures { result ≡ command_unset m op }
{
    event_side_unset(m.setup, op)
        || flight_side_unset(m.setup, op)
        || temperature_side_unset(m.setup, op)
}

fn flight_started(f: Flight, op: u32) -> Flight
    ensures { result ≡ flight_started f op }
{
    Flight {
        schedule: start_single(f.schedule),
        up: op != TOF_DOWN,
        down: op != TOF_UP,
        ..f
    }
}

fn flight_event(f: Flight, setup: [u16; 16]) -> Flight
    ensures { result ≡ flight_event f setup }
{
    let period = setup::difference_period(setup);
    let planned = setup::difference_count(setup);
    let continuous = setup::event_continuous(setup);
    Flight {
        schedule: start_event(period, planned, continuous),
        up: true,
        down: true,
        sum: Quanta(0),
        ..f
    }
}

fn temperature_event(t: Temperature, setup: [u16; 16]) -> Temperature
    ensures { result ≡ temperature_event t setup }
{
    let period = setup::temperature_period(setup);
    let planned = setup::temperature_count(setup);
    let continuous = setup::event_continuous(setup);
    Temperature {
        schedule: start_event(period, planned, continuous),
        sums: [Quanta(0); 4],
        ..t
    }
}

fn event_flight(m: Model, op: u32) -> Flight
    ensures { result ≡ event_flight m op }
{
    if starts_flight(op) {
        flight_event(m.flight, m.setup)
    } else {
        m.flight
    }
}

fn event_temperature(m: Model, op: u32) -> Temperature
    ensures { result ≡ event_temperature m op }
{
    if starts_temperature(op) {
        temperature_event(m.temperature, m.setup)
    } else {
        m.temperature
    }
}

fn started_event(m: Model, op: u32) -> Model
    ensures { result ≡ started_event m op }
{
    // Fields set by hand: a struct update copies the model once more in a list.
    let flight = event_flight(m, op);
    let temperature = event_temperature(m, op);
    let mut next = m;
    next.flight = flight;
    next.temperature = temperature;
    next
}

fn initialised_model(m: Model) -> Model
    ensures { result ≡ initialised_model m }
{
    // Fields set by hand: a struct update copies the model once more in a list.
    let old = m.status;
    let status = joined(old, init_bit());
    let mut next = m;
    next.status = status;
    next.initialised = true;
    next
}

fn halted_model(m: Model) -> Model
    ensures { result ≡ halted_model m }
{
    // Fields set by hand: a struct update copies the model once more in a list.
    let old = m.status;
    let mut flight = m.flight;
    let mut temperature = m.temperature;
    let f = halt_schedule(flight.schedule);
    let t = halt_schedule(temperature.schedule);
    flight.schedule = f;
    temperature.schedule = t;
    let status = joined(old, halt_bit());
    let mut next = m;
    next.status = status;
    next.flight = flight;
    next.temperature = temperature;
    next
}

// A measurement that is no part of an event starts.
pub fn single_started(m: Model, op: u32) -> Model
    ensures { result ≡ single_started m op }
{
    // Fields set by hand: a struct update copies the model once more in a list.
    let mut next = m;
    if op == TEMPERATURE {
        let mut temperature = m.temperature;
        let k = start_single(temperature.schedule);
        temperature.schedule = k;
        next.temperature = temperature;
        return next;
    }
    let old = m.flight;
    let flight = flight_started(old, op);
    next.flight = flight;
    next
}

// The regulator of the user flash is switched on, and off.
fn supplied(m: Model) -> Model
    ensures { result ≡ supplied m }
{
    // Fields set by hand: a struct update copies the model once more in a list.
    let old = m.status;
    let status = joined(old, ldo_bit());
    let mut next = m;
    next.status = status;
    next.regulator = true;
    next
}

fn unsupplied(m: Model) -> Model
    ensures { result ≡ unsupplied m }
{
    // Fields set by hand: a struct update copies the model once more in a list.
    let old = m.status;
    let status = without_ldo(old);
    let mut next = m;
    next.status = status;
    next.regulator = false;
    next
}

// The model after an accepted command.
pub fn run_model(m: Model, op: u32) -> Model
    ensures { result ≡ run_model m op }
{
    // A chain of returns: a match costs every call of a list a copy of the model.
    if op == RESET {
        return fresh_with(no_bits());
    }
    if op == INITIALIZE {
        return initialised_model(m);
    }
    if op == HALT {
        return halted_model(m);
    }
    if op == LDO_ON {
        return supplied(m);
    }
    if op == LDO_OFF {
        return unsupplied(m);
    }
    if is_event(op) {
        return started_event(m, op);
    }
    single_started(m, op)
}
