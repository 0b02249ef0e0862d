// The clock and the alarm.
ghost use Rattle.std.specs.Prelude.{◌≡◌, ◌<◌, ◌∷◌};
ghost use Rattle.wording.specs.Text.{PutEach};
ghost use Rattle.wording.specs.Wording.{line_feed};
ghost use Rattle.numeral.specs.Ascii.{ascii};
ghost use Rattle.page.specs.Row.{ended};
ghost use Rattle.page.specs.Clock.{hours as Clock·hours, seconds_row, time_row, day_row, month_row, clock_row, alarm_row, clock_rows};
ghost use Rattle.show.specs.Words.{PutRows};

use form::{put_form, value};
use item_state::output::words_from;

pub fn put_clock(buf: &mut [u8], at: usize, words: &[u32]) -> usize
    ensures { PutRows clock_rows words.now buf.old at result buf.new }
{
    let second = value(words, 0);
    let time = value(words, 1);
    let day = value(words, 2);
    let month = value(words, 3);
    let a = put_seconds_row(buf, at, second);
    let b = put_time_row(buf, a, time);
    let c = put_day_row(buf, b, day);
    let d = put_month_row(buf, c, month);
    let e = put_clock_row(buf, d, second, time, day, month);
    let f = put_form(
        buf,
        e,
        b"B4     Watchdog Alarm Counter   |$| stored only|\n|",
        words_from(words, 4),
    );
    put_alarm_row(buf, f, value(words, 5), value(words, 0xc3 - 0xb0) / 4 % 4)
}

// The digits of the hours: bit 5 is one of them in the 24-hour form alone.
fn hours(w: u32) -> u32
    ensures { result ≡ Clock·hours w }
{
    if clock::words::twelve_in(w) {
        w % 32
    } else {
        w % 64
    }
}

// With the title above it.
fn put_seconds_row(buf: &mut [u8], at: usize, w: u32) -> usize
    ensures { PutEach buf.old at (ascii "RTC AND WATCHDOG REGISTERS" ∷ line_feed ∷ ended (seconds_row w)) result buf.new }
{
    let values = [w, w, w / 256];
    put_form(
        buf,
        at,
        b"RTC AND WATCHDOG REGISTERS|\n|\
          B0     Seconds                  |$| |%|.|%| s|\n|",
        &values,
    )
}

fn put_time_row(buf: &mut [u8], at: usize, w: u32) -> usize
    ensures { PutEach buf.old at (ended (time_row w)) result buf.new }
{
    let values = [w, hours(w), w / 256 % 128, w / 32 % 4, w / 32 % 4];
    put_form(
        buf,
        at,
        b"B1     Mins_Hrs                 |$| |%|:|%|?2 AM|?3 PM|\n|",
        &values,
    )
}

fn put_day_row(buf: &mut [u8], at: usize, w: u32) -> usize
    ensures { PutEach buf.old at (ended (day_row w)) result buf.new }
{
    let values = [w, w / 256, w];
    put_form(
        buf,
        at,
        b"B2     Day_Date                 |$| weekday |#|, date |%|\n|",
        &values,
    )
}

fn put_month_row(buf: &mut [u8], at: usize, w: u32) -> usize
    ensures { PutEach buf.old at (ended (month_row w)) result buf.new }
{
    let values = [w, w / 256, w];
    put_form(
        buf,
        at,
        b"B3     Month_Year               |$| month |%|, year 20|%|\n|",
        &values,
    )
}

fn put_clock_row(buf: &mut [u8], at: usize, second: u32, time: u32, day: u32, month: u32) -> usize
    ensures { PutEach buf.old at (ended (clock_row second time day month)) result buf.new }
{
    let half = time / 32 % 4;
    let values = [
        month,
        month / 256,
        day,
        hours(time),
        time / 256 % 128,
        second,
        second / 256,
        half,
        half,
    ];
    put_form(
        buf,
        at,
        b"       Clock                               |20|%|-|%|-|%| |%|:|%|:|%|.|%|?2 AM|?3 PM|\n|",
        &values,
    )
}

fn put_alarm_row(buf: &mut [u8], at: usize, w: u32, mode: u32) -> usize
    requires { mode < 4 }
    ensures { PutEach buf.old at (ended (alarm_row w mode)) result buf.new }
{
    let half = w / 32 % 4;
    let values = [
        w,
        hours(w),
        w / 256 % 128,
        half,
        half,
        mode,
        mode,
        mode,
        mode,
    ];
    put_form(
        buf,
        at,
        b"B5     Alarm                    |$| |%|:|%|?2 AM|?3 PM|\
          ?0, no alarm|?1, minutes match|?2, hours match|?3, hours and minutes match|\n|",
        &values,
    )
}
