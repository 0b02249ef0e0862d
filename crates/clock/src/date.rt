// Leap years, month lengths and validity.
ghost use Rattle.std.specs.Prelude.{◌≡◌};
ghost use Rattle.calendar.specs.Calendar.{leap, month_length, clock_valid, date_fits, time_fits, start};

use calendar::Clock;
use unit::Ticks;

pub fn leap(year: u32) -> bool
    ensures { result ≡ leap year }
{
    year % 4 == 0
}

pub fn month_length(year: u32, month: u32) -> u32
    ensures { result ≡ month_length year month }
{
    match month {
        2 if leap(year) => 29,
        2 => 28,
        4 | 6 | 9 | 11 => 30,
        _ => 31,
    }
}

pub fn date_fits(c: Clock) -> bool
    ensures { result ≡ date_fits c }
{
    c.year <= 99
        && (1..=12).contains(&c.month)
        && (1..=month_length(c.year, c.month)).contains(&c.date)
        && (1..=7).contains(&c.weekday)
}

pub fn time_fits(c: Clock) -> bool
    ensures { result ≡ time_fits c }
{
    c.hour <= 23 && c.minute <= 59 && c.second <= 59 && c.ticks.0 <= 32767
}

pub fn clock_valid(c: Clock) -> bool
    ensures { result ≡ clock_valid c }
{
    date_fits(c) && time_fits(c)
}

// The clock of a fresh model.
pub fn start() -> Clock
    ensures { result ≡ start }
{
    Clock {
        year: 0,
        month: 1,
        date: 1,
        weekday: 1,
        hour: 0,
        minute: 0,
        second: 0,
        ticks: Ticks(0),
        twelve: false,
    }
}
