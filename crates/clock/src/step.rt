// The clock one tick later. Each unit carries into the next larger one.
ghost use Rattle.std.specs.Prelude.{◌≡◌};
ghost use Rattle.calendar.specs.Calendar.{tick_clock, next_second, next_minute, next_hour, next_date, next_month, next_year, next_weekday};

use crate::date::month_length;
use calendar::Clock;
use unit::Ticks;

fn next_year(c: Clock) -> Clock
    ensures { result ≡ next_year c }
{
    if 99 <= c.year {
        Clock { year: 0, ..c }
    } else {
        Clock {
            year: c.year + 1,
            ..c
        }
    }
}

fn next_month(c: Clock) -> Clock
    ensures { result ≡ next_month c }
{
    if 12 <= c.month {
        next_year(Clock { month: 1, ..c })
    } else {
        Clock {
            month: c.month + 1,
            ..c
        }
    }
}

fn next_date(c: Clock) -> Clock
    ensures { result ≡ next_date c }
{
    let weekday = next_weekday(c.weekday);
    if month_length(c.year, c.month) <= c.date {
        next_month(Clock {
            date: 1,
            weekday,
            ..c
        })
    } else {
        Clock {
            date: c.date + 1,
            weekday,
            ..c
        }
    }
}

fn next_weekday(weekday: u32) -> u32
    ensures { result ≡ next_weekday weekday }
{
    if 7 <= weekday { 1 } else { weekday + 1 }
}

fn next_hour(c: Clock) -> Clock
    ensures { result ≡ next_hour c }
{
    if 23 <= c.hour {
        next_date(Clock { hour: 0, ..c })
    } else {
        Clock {
            hour: c.hour + 1,
            ..c
        }
    }
}

fn next_minute(c: Clock) -> Clock
    ensures { result ≡ next_minute c }
{
    if 59 <= c.minute {
        next_hour(Clock { minute: 0, ..c })
    } else {
        Clock {
            minute: c.minute + 1,
            ..c
        }
    }
}

fn next_second(c: Clock) -> Clock
    ensures { result ≡ next_second c }
{
    if 59 <= c.second {
        next_minute(Clock { second: 0, ..c })
    } else {
        Clock {
            second: c.second + 1,
            ..c
        }
    }
}

pub fn tick_clock(c: Clock) -> Clock
    ensures { result ≡ tick_clock c }
{
    if 32767 <= c.ticks.0 {
        next_second(Clock {
            ticks: Ticks(0),
            ..c
        })
    } else {
        Clock {
            ticks: Ticks(c.ticks.0 + 1),
            ..c
        }
    }
}
