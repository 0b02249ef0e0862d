// Ticks that are taken at once, up to the next one that may report.
ghost use Rattle.std.specs.Prelude.{◌≡◌, true, ◌≤◌, ◌<◌};
ghost use Rattle.device.specs.Model.{is_sound};
ghost use Rattle.device.specs.StretchSteps.{quiet_for};
ghost use Rattle.item_ticks_code.specs.OwnMoved.{MovedOn};

use crate::Moved;
use device::{Model, Report};
use ticking::stretch::{quiet_for, quiet_ticks};
use ticking::tick::{report_of, tick_model};
use unit::Ticks;

// At least one tick, `most` at most.
pub fn move_on(m: Model, most: Ticks) -> Moved
    requires { (is_sound m ≡ true) × (0 < most.0) }
    ensures { MovedOn m most.0 result }
{
    let quiet = quiet_for(m);
    if quiet.0 == 0 {
        return move_by_one(m, most);
    }
    if quiet.0 < most.0 {
        return move_quietly(m, quiet, most);
    }
    move_quietly(m, most, most)
}

// n ticks in which nothing happens.
fn move_quietly(m: Model, n: Ticks, most: Ticks) -> Moved
    requires { (is_sound m ≡ true) × (0 < n.0) × (n.0 ≤ quiet_for m) × (n.0 ≤ most.0) }
    ensures { MovedOn m most.0 result }
{
    let none = Report {
        started: false,
        failed: false,
    };
    Moved {
        model: quiet_ticks(m, n),
        ran: n,
        flight: none,
        temperature: none,
    }
}

// One tick, whatever happens in it.
fn move_by_one(m: Model, most: Ticks) -> Moved
    requires { (is_sound m ≡ true) × (0 < most.0) }
    ensures { MovedOn m most.0 result }
{
    Moved {
        model: tick_model(m),
        ran: Ticks(1),
        flight: report_of(m.flight.schedule),
        temperature: report_of(m.temperature.schedule),
    }
}
