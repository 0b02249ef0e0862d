// The clock and the alarm.
ghost use Rattle.std.specs.Prelude.{◌≡◌, length, drop};
ghost use Rattle.text.specs.Text.{ended_each};
ghost use Rattle.text.specs.OwnPut.{Puts};
ghost use Rattle.item_page.specs.Registers.{hours as Registers·hours, time_of_day, half_day, alarm_text, clock_rows};
ghost use Rattle.item_page_code.specs.OwnWords.{word_at};

use item_page_form::put_form;

pub fn put_clock(buf: &mut [u8], at: usize, words: &[u32]) -> usize
    requires { length words.now ≡ 80 }
    ensures { Puts buf.old at (ended_each (clock_rows (word_at words.now))) result buf.new }
{
    let s = words[0];
    let t = words[1];
    let d = words[2];
    let m = words[3];
    let seconds = [s, s, s / 256, t];
    let date = [d, d / 256, d, m, m / 256, m, m, m / 256, d, s, s / 256];
    let a = put_form(
        buf,
        at,
        b"RTC AND WATCHDOG REGISTERS\nB0     Seconds                  |$|       |%|.|%| s\n\
          B1     Mins_Hrs                 |$|       |",
        &seconds,
        0,
    );
    let b = put_time(buf, a, t);
    let c = put_half(buf, b, t);
    let e = put_form(
        buf,
        c,
        b"\nB2     Day_Date                 |$|       weekday |#|, date |%|\n\
          B3     Month_Year               |$|       month |%|, year 20|%|\n       \
          Clock                               20|%|-|%|-|%| |",
        &date,
        0,
    );
    let f = put_time(buf, e, t);
    let g = put_form(buf, f, b":|%|.|%|", &date, 9);
    let h = put_half(buf, g, t);
    let i = numeral::put_text(buf, h, b"\n");
    put_alarm_rows(buf, i, words)
}

fn put_alarm_rows(buf: &mut [u8], at: usize, words: &[u32]) -> usize
    requires { length words.now ≡ 80 }
    ensures { Puts buf.old at (ended_each (drop 6 (clock_rows (word_at words.now)))) result buf.new }
{
    let alarm = words[5];
    let a = put_form(
        buf,
        at,
        b"B4     Watchdog Alarm Counter   |$|       stored only\n\
          B5     Alarm                    |$|       |",
        words,
        4,
    );
    let b = put_time(buf, a, alarm);
    let c = put_half(buf, b, alarm);
    let d = put_alarm(buf, c, words[0xc3 - 0xb0] / 4 % 4);
    numeral::put_text(buf, d, b"\n")
}

// The digits of the hours: bit 5 is one of them in the 24-hour form alone.
fn hours(w: u32) -> u32
    ensures { result ≡ Registers·hours w }
{
    if clock::words::twelve_in(w) {
        w % 32
    } else {
        w % 64
    }
}

fn put_time(buf: &mut [u8], at: usize, w: u32) -> usize
    ensures { Puts buf.old at (time_of_day w) result buf.new }
{
    let a = numeral::put_hex(buf, at, 2, hours(w));
    let b = numeral::put_text(buf, a, b":");
    numeral::put_hex(buf, b, 2, w / 256 % 128)
}

fn put_half(buf: &mut [u8], at: usize, w: u32) -> usize
    ensures { Puts buf.old at (half_day w) result buf.new }
{
    if clock::words::twelve_in(w) {
        if w / 32 % 2 == 1 {
            return numeral::put_text(buf, at, b" PM");
        }
        return numeral::put_text(buf, at, b" AM");
    }
    at
}

fn put_alarm(buf: &mut [u8], at: usize, mode: u32) -> usize
    ensures { Puts buf.old at (alarm_text mode) result buf.new }
{
    if mode == 0 {
        return numeral::put_text(buf, at, b", no alarm");
    }
    if mode == 1 {
        return numeral::put_text(buf, at, b", minutes match");
    }
    if mode == 2 {
        return numeral::put_text(buf, at, b", hours match");
    }
    numeral::put_text(buf, at, b", hours and minutes match")
}
