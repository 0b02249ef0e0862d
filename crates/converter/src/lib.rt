// The calls of the MAX35101 model. Each takes any model and any input; a refusal changes nothing.
#![tactic(auto)]

ghost use Rattle.std.specs.Prelude.{◌≡◌};
ghost use Rattle.device.specs.Model.{fresh_model};
ghost use Rattle.device.specs.Call.{Call};
ghost use Rattle.device.specs.Reply.{Replied, Transacted};

use bus::sound_transaction;
use device::{Model, Reply};
use model::reply::refuse;
use model::state::{fresh_with, is_sound};
pub use question::{flight_awaited, interrupt_pending, peek, regulator_on, temperature_awaited};
use refusal::Refusal;
pub use run_state::{flight_left, flight_place, initialised, temperature_left, temperature_place};
use sound_calls::{sound_flight_delivery, sound_stretch, sound_temperature_delivery, sound_tick};
use status::por_bit;
use unit::Ticks;

pub fn fresh() -> Model
    ensures { result ≡ fresh_model }
{
    fresh_with(por_bit())
}

// One bus transaction: the bytes of a chip-enable window, the output buffer, and the user flash.
pub fn transaction(m: Model, frame: &[u8], out: &mut [u8], mem: &mut [u8]) -> Reply
    ensures { Transacted m (Call.transaction frame.now out.old mem.old) result out.new mem.new }
{
    if is_sound(m) {
        sound_transaction(m, frame, out, mem)
    } else {
        refuse(m, Refusal::NotSound)
    }
}

// One period of the 32,768 Hz clock.
pub fn tick(m: Model) -> Reply
    ensures { Replied m Call.tick result }
{
    if is_sound(m) {
        sound_tick(m)
    } else {
        refuse(m, Refusal::NotSound)
    }
}

// n such periods at once, at most 16,384.
pub fn stretch(m: Model, n: Ticks) -> Reply
    ensures { Replied m (Call.stretch n.0) result }
{
    if is_sound(m) {
        sound_stretch(m, n)
    } else {
        refuse(m, Refusal::NotSound)
    }
}

// The hit words of an awaited flight measurement: the up list and the down list.
pub fn flight_delivery(m: Model, up: &[u32], down: &[u32]) -> Reply
    ensures { Replied m (Call.flight up.now down.now) result }
{
    if is_sound(m) {
        sound_flight_delivery(m, up, down)
    } else {
        refuse(m, Refusal::NotSound)
    }
}

// The words of an awaited temperature measurement, T1 to T4.
pub fn temperature_delivery(m: Model, words: &[u32]) -> Reply
    ensures { Replied m (Call.temperature words.now) result }
{
    if is_sound(m) {
        sound_temperature_delivery(m, words)
    } else {
        refuse(m, Refusal::NotSound)
    }
}
