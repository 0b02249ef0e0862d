// The calendar's registers 30h to 33h: their words from the clock, and the clock from their words.
ghost use Rattle.std.specs.Prelude.{◌≡◌, ◌<◌};
ghost use Rattle.calendar.specs.Words.{bcd, hundredths_of, word30, word31, word32, word33, minute_in, ticks_in, clock_from, time_digits, digits_fit, words_valid, alarm_valid};
ghost use Rattle.calendar.specs.Words.{twelve_hour, hour_digits, twelve_in, hour_named, hour_in, hour_fits};

use crate::date::clock_valid;
use calendar::Clock;
use unit::Ticks;

// The two decimal digits of a number below 100, four bits each.
pub fn bcd(n: u32) -> u8
    ensures { result ≡ bcd n }
{
    (n / 10 % 10 * 16 + n % 10) as u8
}

pub fn hundredths_of(t: Ticks) -> u32
    ensures { result ≡ hundredths_of t }
{
    (u64::from(t.0) * 100 / 32768) as u32
}

pub fn word30(c: Clock) -> u32
    ensures { result ≡ word30 c }
{
    u32::from(bcd(hundredths_of(c.ticks))) * 256 + u32::from(bcd(c.second))
}

// The hour that a clock of twelve hours shows.
fn twelve_hour(hour: u32) -> u32
    ensures { result ≡ twelve_hour hour }
{
    if hour % 12 == 0 { 12 } else { hour % 12 }
}

// The low byte of 31h.
fn hour_digits(twelve: bool, hour: u32) -> u32
    ensures { (result ≡ hour_digits twelve hour) × (result < 512) }
{
    if !twelve {
        return u32::from(bcd(hour));
    }
    let digits = u32::from(bcd(twelve_hour(hour)));
    if 12 <= hour {
        0x60 + digits
    } else {
        0x40 + digits
    }
}

pub fn word31(c: Clock) -> u32
    ensures { result ≡ word31 c }
{
    u32::from(bcd(c.minute)) * 256 + hour_digits(c.twelve, c.hour)
}

pub fn word32(c: Clock) -> u32
    ensures { result ≡ word32 c }
{
    c.weekday % 8 * 256 + u32::from(bcd(c.date))
}

pub fn word33(c: Clock) -> u32
    ensures { result ≡ word33 c }
{
    u32::from(bcd(c.month)) * 256 + u32::from(bcd(c.year))
}

pub fn minute_in(w: u32) -> u32
    ensures { result ≡ minute_in w }
{
    w / 4096 % 8 * 10 + w / 256 % 16
}

// Whether the word has the 12-hour form.
pub fn twelve_in(w: u32) -> bool
    ensures { result ≡ twelve_in w }
{
    w / 64 % 2 == 1
}

// The hour that the digits name.
fn hour_named(w: u32) -> u32
    ensures { result ≡ hour_named w }
{
    if twelve_in(w) {
        w / 16 % 2 * 10 + w % 16
    } else {
        w / 16 % 4 * 10 + w % 16
    }
}

// The hour meant.
pub fn hour_in(w: u32) -> u32
    ensures { result ≡ hour_in w }
{
    let named = hour_named(w);
    if !twelve_in(w) {
        named
    } else if w / 32 % 2 == 1 {
        named % 12 + 12
    } else {
        named % 12
    }
}

// The ticks at which a second first reads the hundredths of a word of 30h.
pub fn ticks_in(w: u32) -> Ticks
    ensures { result ≡ ticks_in w }
{
    let centiseconds = w / 4096 % 16 * 10 + w / 256 % 16;
    Ticks((centiseconds * 32768 + 99) / 100)
}

pub fn clock_from(w30: u32, w31: u32, w32: u32, w33: u32, ticks: Ticks) -> Clock
    ensures { result ≡ clock_from w30 w31 w32 w33 ticks }
{
    Clock {
        year: w33 / 16 % 16 * 10 + w33 % 16,
        month: w33 / 4096 % 2 * 10 + w33 / 256 % 16,
        date: w32 / 16 % 4 * 10 + w32 % 16,
        weekday: w32 / 256 % 8,
        hour: hour_in(w31),
        minute: minute_in(w31),
        second: w30 / 16 % 8 * 10 + w30 % 16,
        ticks,
        twelve: twelve_in(w31),
    }
}

// Decimal digits of minutes and hours.
fn time_digits(w: u32) -> bool
    ensures { result ≡ time_digits w }
{
    w / 256 % 16 <= 9 && w % 16 <= 9
}

// Whether the hour is one of the word's form.
fn hour_fits(w: u32) -> bool
    ensures { result ≡ hour_fits w }
{
    let named = hour_named(w);
    if twelve_in(w) {
        (1..=12).contains(&named)
    } else {
        named <= 23
    }
}

pub fn digits_fit(w30: u32, w31: u32, w32: u32, w33: u32) -> bool
    ensures { result ≡ digits_fit w30 w31 w32 w33 }
{
    let digits = [
        w30 / 4096 % 16,
        w30 / 256 % 16,
        w30 % 16,
        w32 % 16,
        w33 / 256 % 16,
        w33 / 16 % 16,
        w33 % 16,
    ];
    digits.iter().all(|digit| *digit <= 9) && time_digits(w31)
}

// Whether the four words give a valid clock at these ticks.
pub fn words_valid(w30: u32, w31: u32, w32: u32, w33: u32, ticks: Ticks) -> bool
    ensures { result ≡ words_valid w30 w31 w32 w33 ticks }
{
    digits_fit(w30, w31, w32, w33)
        && hour_fits(w31)
        && clock_valid(clock_from(w30, w31, w32, w33, ticks))
}

pub fn alarm_valid(w: u32) -> bool
    ensures { result ≡ alarm_valid w }
{
    time_digits(w) && minute_in(w) <= 59 && hour_fits(w)
}
