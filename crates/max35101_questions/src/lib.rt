// Questions about a model, which change nothing. Each value goes to the first place of the lent words.
#![tactic(auto)]

ghost use Rattle.std.specs.Prelude.{◌≡◌, Some};
ghost use Rattle.refusal.specs.Number.{number_told, value_told};
ghost use Rattle.device.specs.Question.{interrupt_pending, awaited_told, regulator_on, peek};
ghost use Rattle.run_state.specs.State.{initialised_told, left_told, values_left};
ghost use Rattle.run_state.specs.Event.{event_values, place_told, values_placed};
ghost use Rattle.max35101_questions.specs.Frames.{SetUp};
ghost use Rattle.layout.specs.Layout.{loaded};
ghost use Rattle.layout.specs.Code.{Gives, filled};

use converter::{
    flight_awaited, flight_left, flight_place, initialised, interrupt_pending, peek, regulator_on,
    temperature_awaited, temperature_left, temperature_place,
};
use finding::{framed, told};
use outcome::{ACCEPTED, put, put_four};
use refusal::Refusal;
use run_state::Place;
use setup_frames::setup_frames;
use snapshot::load;
use unit::Ticks;

// The INT answer: 1 for yes, 0 for no.
#[unsafe(no_mangle)]
pub extern "C" fn max35101_interrupt_pending(model: &[u8], answer: &mut [u32]) -> u32
    ensures { Gives number_told value_told (interrupt_pending (loaded model.now)) answer.old result answer.new }
{
    told(interrupt_pending(load(model)), answer)
}

// Whether a flight measurement is awaited: 1 or 0.
#[unsafe(no_mangle)]
pub extern "C" fn max35101_flight_awaited(model: &[u8], answer: &mut [u32]) -> u32
    ensures { Gives number_told value_told (awaited_told (loaded model.now) (loaded model.now).flight.schedule) answer.old result answer.new }
{
    told(flight_awaited(load(model)), answer)
}

// Whether a temperature measurement is awaited: 1 or 0.
#[unsafe(no_mangle)]
pub extern "C" fn max35101_temperature_awaited(model: &[u8], answer: &mut [u32]) -> u32
    ensures { Gives number_told value_told (awaited_told (loaded model.now) (loaded model.now).temperature.schedule) answer.old result answer.new }
{
    told(temperature_awaited(load(model)), answer)
}

fn left(answer: Result<Ticks, Refusal>, words: &mut [u32]) -> u32
    ensures { Gives number_told values_left answer words.old result words.new }
{
    match answer {
        Ok(ticks) => {
            put(words, 0, ticks.0);
            ACCEPTED
        }
        Err(refusal) => refusal.number(),
    }
}

// In how many ticks the awaited flight measurement fails; 0 where none is awaited.
#[unsafe(no_mangle)]
pub extern "C" fn max35101_flight_left(model: &[u8], answer: &mut [u32]) -> u32
    ensures { Gives number_told values_left (left_told (loaded model.now) (loaded model.now).flight.schedule) answer.old result answer.new }
{
    left(flight_left(load(model)), answer)
}

// In how many ticks the awaited temperature measurement fails; 0 where none is awaited.
#[unsafe(no_mangle)]
pub extern "C" fn max35101_temperature_left(model: &[u8], answer: &mut [u32]) -> u32
    ensures { Gives number_told values_left (left_told (loaded model.now) (loaded model.now).temperature.schedule) answer.old result answer.new }
{
    left(temperature_left(load(model)), answer)
}

fn put_place(p: Place, words: &mut [u32])
    ensures { words.new ≡ filled words.old (event_values (Some p)) }
{
    let next = p.next;
    put_four(
        words,
        1,
        p.planned as u32,
        p.started as u32,
        p.settled as u32,
    );
    put(words, 4, p.good as u32);
    put(words, 5, next.0);
    put(words, 6, p.continuous as u32);
}

fn put_event(event: Option<Place>, words: &mut [u32])
    ensures { words.new ≡ filled words.old (event_values event) }
{
    match event {
        Some(place) => put_place(place, words),
        None => put(words, 0, 0),
    }
}

fn placed(answer: Result<Option<Place>, Refusal>, words: &mut [u32]) -> u32
    ensures { Gives number_told values_placed answer words.old result words.new }
{
    match answer {
        Ok(event) => {
            put_event(event, words);
            ACCEPTED
        }
        Err(refusal) => refusal.number(),
    }
}

// The place of the event of differences. The answer's words: 0 where none runs; else 1, how many measurements it makes, how many are
// started, settled and good, the ticks until the next start, and whether it is a continuous event.
#[unsafe(no_mangle)]
pub extern "C" fn max35101_flight_place(model: &[u8], answer: &mut [u32]) -> u32
    ensures { Gives number_told values_placed (place_told (loaded model.now) (loaded model.now).flight.schedule) answer.old result answer.new }
{
    placed(flight_place(load(model)), answer)
}

// The same of the event of temperatures.
#[unsafe(no_mangle)]
pub extern "C" fn max35101_temperature_place(model: &[u8], answer: &mut [u32]) -> u32
    ensures { Gives number_told values_placed (place_told (loaded model.now) (loaded model.now).temperature.schedule) answer.old result answer.new }
{
    placed(temperature_place(load(model)), answer)
}

// Whether the model is initialised: 1 or 0.
#[unsafe(no_mangle)]
pub extern "C" fn max35101_initialised(model: &[u8], answer: &mut [u32]) -> u32
    ensures { Gives number_told value_told (initialised_told (loaded model.now)) answer.old result answer.new }
{
    told(initialised(load(model)), answer)
}

// Whether the regulator of the user flash is on: 1 or 0.
#[unsafe(no_mangle)]
pub extern "C" fn max35101_regulator_on(model: &[u8], answer: &mut [u32]) -> u32
    ensures { Gives number_told value_told (regulator_on (loaded model.now)) answer.old result answer.new }
{
    told(regulator_on(load(model)), answer)
}

// The word that a read at an address, B0h to FFh, would give, with nothing cleared.
#[unsafe(no_mangle)]
pub extern "C" fn max35101_peek(model: &[u8], address: u32, answer: &mut [u32]) -> u32
    ensures { Gives number_told value_told (peek (loaded model.now) address) answer.old result answer.new }
{
    told(peek(load(model), address), answer)
}

// The model's set-up as bus frames, and the length of each. The answer's sizes: how many bytes, and how many frames.
#[unsafe(no_mangle)]
pub extern "C" fn max35101_setup_frames(
    model: &[u8],
    bytes: &mut [u8],
    lengths: &mut [u32],
    answer: &mut [usize],
) -> u32
    ensures { SetUp (loaded model.now) bytes.old lengths.old answer.old result bytes.new lengths.new answer.new }
{
    let f = setup_frames(load(model), bytes, lengths);
    framed(f, answer)
}
