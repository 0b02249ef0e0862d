// Questions about the state of a model's run, which no register tells: in how many ticks the awaited measurement fails, the place of an
// event, and whether the model is initialised. They change nothing.
#![tactic(auto)]

ghost use Rattle.std.specs.Prelude.{◌≡◌};
ghost use Rattle.unit.specs.Says.{Says};
ghost use Rattle.refusal.specs.Number.{number_told, value_told};
ghost use Rattle.run_state.specs.State.{initialised_told, left_told, values_left};
ghost use Rattle.run_state.specs.Event.{next_start, place_of, place_told, values_placed};

use device::{Model, Schedule};
use model::state::is_sound;
use refusal::Refusal;
use schedule::in_event;
use unit::Ticks;

// The place of an event: how many measurements it makes, or a group of a continuous one; how many of them, or of the current group,
// are started, settled and good; and the ticks until the next start, 0 where all are started.
// No Option of ticks: `next_start` of specs/Event says 0 ticks.
#[derive(Clone, Copy)]
pub struct Place {
    pub planned: u8,
    pub started: u8,
    pub settled: u8,
    pub good: u16,
    pub next: Ticks,
    pub continuous: bool,
}

fn left_told(m: Model, k: Schedule) -> Result<Ticks, Refusal>
    ensures { Says number_told values_left result (left_told m k) }
{
    if is_sound(m) {
        Ok(k.left)
    } else {
        Err(Refusal::NotSound)
    }
}

// In how many ticks the awaited flight measurement fails; 0 where none is awaited.
pub fn flight_left(m: Model) -> Result<Ticks, Refusal>
    ensures { Says number_told values_left result (left_told m m.flight.schedule) }
{
    left_told(m, m.flight.schedule)
}

// In how many ticks the awaited temperature measurement fails; 0 where none is awaited.
pub fn temperature_left(m: Model) -> Result<Ticks, Refusal>
    ensures { Says number_told values_left result (left_told m m.temperature.schedule) }
{
    left_told(m, m.temperature.schedule)
}

fn next_start(k: Schedule) -> Ticks
    ensures { result ≡ next_start k }
{
    if k.continuous || k.started < k.planned {
        k.wait
    } else {
        Ticks(0)
    }
}

fn place_of(k: Schedule) -> Place
    ensures { result ≡ place_of k }
{
    Place {
        planned: k.planned,
        started: k.started,
        settled: k.settled,
        good: k.good,
        next: next_start(k),
        continuous: k.continuous,
    }
}

fn place_told(m: Model, k: Schedule) -> Result<Option<Place>, Refusal>
    ensures { Says number_told values_placed result (place_told m k) }
{
    if !is_sound(m) {
        Err(Refusal::NotSound)
    } else if in_event(k) {
        Ok(Some(place_of(k)))
    } else {
        Ok(None)
    }
}

// The place of the event of differences, where one runs.
pub fn flight_place(m: Model) -> Result<Option<Place>, Refusal>
    ensures { Says number_told values_placed result (place_told m m.flight.schedule) }
{
    place_told(m, m.flight.schedule)
}

// The place of the event of temperatures, where one runs.
pub fn temperature_place(m: Model) -> Result<Option<Place>, Refusal>
    ensures { Says number_told values_placed result (place_told m m.temperature.schedule) }
{
    place_told(m, m.temperature.schedule)
}

// Whether the model is initialised: 1 or 0.
pub fn initialised(m: Model) -> Result<u32, Refusal>
    ensures { Says number_told value_told result (initialised_told m) }
{
    if is_sound(m) {
        Ok(u32::from(m.initialised))
    } else {
        Err(Refusal::NotSound)
    }
}
