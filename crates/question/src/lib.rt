// Questions about a model: INT, what is awaited, the regulator of the user flash, and a register's word. They change nothing.
#![tactic(auto)]

ghost use Rattle.unit.specs.Says.{Says};
ghost use Rattle.refusal.specs.Number.{number_told, value_told};
ghost use Rattle.device.specs.Question.{interrupt_pending, awaited_told, regulator_on, peek};

use device::{Model, Schedule};
use model::state::is_sound;
use refusal::Refusal;
use schedule::is_awaited;
use status::status_word;

// The INT answer: 1 for yes, 0 for no.
pub fn interrupt_pending(m: Model) -> Result<u32, Refusal>
    ensures { Says number_told value_told result (interrupt_pending m) }
{
    if is_sound(m) {
        Ok(u32::from(setup::interrupt_enabled(m.setup) && status_word(m.status) != 0))
    } else {
        Err(Refusal::NotSound)
    }
}

fn awaited_told(m: Model, k: Schedule) -> Result<u32, Refusal>
    ensures { Says number_told value_told result (awaited_told m k) }
{
    if is_sound(m) {
        Ok(u32::from(is_awaited(k)))
    } else {
        Err(Refusal::NotSound)
    }
}

// Whether a flight measurement is awaited: 1 or 0.
pub fn flight_awaited(m: Model) -> Result<u32, Refusal>
    ensures { Says number_told value_told result (awaited_told m m.flight.schedule) }
{
    awaited_told(m, m.flight.schedule)
}

// Whether a temperature measurement is awaited: 1 or 0.
pub fn temperature_awaited(m: Model) -> Result<u32, Refusal>
    ensures { Says number_told value_told result (awaited_told m m.temperature.schedule) }
{
    awaited_told(m, m.temperature.schedule)
}

// Whether the regulator of the user flash is on: 1 or 0.
pub fn regulator_on(m: Model) -> Result<u32, Refusal>
    ensures { Says number_told value_told result (regulator_on m) }
{
    if is_sound(m) {
        Ok(u32::from(m.regulator))
    } else {
        Err(Refusal::NotSound)
    }
}

// The word that a read at address a, B0h to FFh, would give, with nothing cleared.
pub fn peek(m: Model, a: u32) -> Result<u32, Refusal>
    ensures { Says number_told value_told result (peek m a) }
{
    if !is_sound(m) {
        return Err(Refusal::NotSound);
    }
    if a < 0xb0 || 0xff < a {
        return Err(Refusal::Address);
    }
    Ok(registers::read::register_word(m, a))
}
