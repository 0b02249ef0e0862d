// The time-of-day alarm.
ghost use Rattle.std.specs.Prelude.{◌≡◌};
ghost use Rattle.calendar.specs.Alarm.{reaches, alarm_rings};

use crate::words::{hour_in, minute_in};
use calendar::Clock;

// Whether a field changed to the target.
fn reaches(before: u32, after: u32, target: u32) -> bool
    ensures { result ≡ reaches before after target }
{
    before != after && after == target
}

// Whether the tick from `before` to `after` rings the alarm of word `w` in this mode (AM).
pub fn alarm_rings(before: Clock, after: Clock, w: u32, mode: u32) -> bool
    ensures { result ≡ alarm_rings before after w mode }
{
    let minute = reaches(before.minute, after.minute, minute_in(w));
    let alarm_hour = hour_in(w);
    match mode {
        1 => minute,
        2 => reaches(before.hour, after.hour, alarm_hour),
        3 => after.hour == alarm_hour && minute,
        _ => false,
    }
}
