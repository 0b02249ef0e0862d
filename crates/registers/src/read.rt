// What a read of each register gives, and the model after a read.
ghost use Rattle.std.specs.Prelude.{◌≡◌, true, ◌<◌, ◌≤◌, ◌+◌, ◌-◌, ◌*◌, ℕ, min, eqb, length, get_or};
ghost use Rattle.unit.specs.Choice.{pick};
ghost use Rattle.calendar.specs.Words.{bcd, word30, word31, word32, word33};
ghost use Rattle.device.specs.Model.{is_sound};
ghost use Rattle.device.specs.Status.{status_word};
ghost use Rattle.device.specs.Bus.{read_model};
ghost use Rattle.device.specs.Registers.{half, calendar_word, flight_word, temperature_word, register_word, put_word, fill_words};
ghost use Rattle.registers.specs.Filled.{Filled};

use calendar::Clock;
use device::{Flight, Model, Status, Temperature};
use evaluation::difference::{difference_mean, port_mean};
use status::{no_bits, status_word};

// A register of a pair: Int at an even place, Frac at an odd one.
fn half(w: u32, place: u32) -> u32
    ensures { result ≡ half w place }
{
    if place % 2 == 0 { w / 65536 } else { w % 65536 }
}

// B0h to B3h.
pub fn calendar_word(m: Model, a: u32) -> u32
    ensures { result ≡ calendar_word m a }
{
    // A chain of tests and parts by name: with a `match` on the address, lists of writes and reads took a fifth more time.
    let clock = m.clock;
    if a == 0xb0 {
        return clock::words::word30(clock);
    }
    if a == 0xb1 {
        return clock::words::word31(clock);
    }
    if a == 0xb2 {
        return clock::words::word32(clock);
    }
    clock::words::word33(clock)
}

// C4h to E6h.
fn flight_word(f: Flight, a: u32) -> u32
    ensures { result ≡ flight_word f a }
{
    // A chain of tests, as in `calendar_word`.
    let k = f.schedule;
    let ups = f.ups;
    let downs = f.downs;
    if a < 0xc5 {
        return 0;
    }
    if a < 0xd3 {
        let place = (a - 0xc5) / 2;
        let w = ups[place as usize];
        return half(w, a - 0xc5);
    }
    if a < 0xd4 {
        return 0;
    }
    if a < 0xe2 {
        let place = (a - 0xd4) / 2;
        let w = downs[place as usize];
        return half(w, a - 0xd4);
    }
    if a < 0xe4 {
        return half(f.difference, a - 0xe2);
    }
    if a == 0xe4 {
        return k.good as u32;
    }
    half(difference_mean(f.sum, k.good as u32), a - 0xe5)
}

// E7h to F7h.
fn temperature_word(t: Temperature, a: u32) -> u32
    requires { (231 ≤ a) × (a ≤ 247) }
    ensures { result ≡ temperature_word t a }
{
    // A chain of tests, as in `calendar_word`.
    let k = t.schedule;
    let ports = t.ports;
    let sums = t.sums;
    if a < 0xef {
        let place = (a - 0xe7) / 2;
        let w = ports[place as usize];
        return half(w, a - 0xe7);
    }
    if a == 0xef {
        return k.good as u32;
    }
    let place = (a - 0xf0) / 2;
    let sum = sums[place as usize];
    half(port_mean(sum, k.good as u32), a - 0xf0)
}

// The word at read address a, B0h to FFh.
pub fn register_word(m: Model, a: u32) -> u32
    requires { (176 ≤ a) × (a ≤ 255) }
    ensures { result ≡ register_word m a }
{
    match a {
        0xb0..=0xb3 => calendar_word(m, a),
        0xb4..=0xc3 => setup::word(m.setup, (a - 0xb4) as usize),
        0xc4..=0xe6 => flight_word(m.flight, a),
        0xe7..=0xf7 => temperature_word(m.temperature, a),
        0xfe => status_word(m.status),
        _ => 0,
    }
}

// The two decimal digits of a number below 100, four bits each.
fn digits(n: u32) -> u32
    requires { n < 100 }
    ensures { (result ≡ bcd n) × (result < 256) }
{
    n + n / 10 * 6
}

// The calendar's words of a clock that is valid, whose numbers have two digits: `clock::words` has them of any clock.
fn valid30(c: Clock) -> u32
    requires { (c.ticks.0 < 32768) × (c.second < 100) }
    ensures { result ≡ word30 c }
{
    digits(c.ticks.0 * 100 / 32768) * 256 + digits(c.second)
}

fn valid31(c: Clock) -> u32
    requires { (c.minute < 100) × (c.hour < 100) }
    ensures { result ≡ word31 c }
{
    if c.twelve {
        return clock::words::word31(c);
    }
    digits(c.minute) * 256 + digits(c.hour)
}

fn valid32(c: Clock) -> u32
    requires { c.date < 100 }
    ensures { result ≡ word32 c }
{
    c.weekday % 8 * 256 + digits(c.date)
}

fn valid33(c: Clock) -> u32
    requires { (c.month < 100) × (c.year < 100) }
    ensures { result ≡ word33 c }
{
    digits(c.month) * 256 + digits(c.year)
}

fn valid_word(m: Model, a: u32) -> u32
    requires { is_sound m ≡ true }
    ensures { result ≡ calendar_word m a }
{
    // A chain of tests, as in `calendar_word`.
    let clock = m.clock;
    if a == 0xb0 {
        return valid30(clock);
    }
    if a == 0xb1 {
        return valid31(clock);
    }
    if a == 0xb2 {
        return valid32(clock);
    }
    valid33(clock)
}

// B4h to C3h.
fn setup_word(setup: &[u16; 16], a: u32) -> u32
    requires { (180 ≤ a) × (a ≤ 195) }
    ensures { result ≡ get_or setup.now (a - 180) 0 }
{
    u32::from(setup[(a - 0xb4) as usize])
}

// F8h to FFh.
fn last_word(s: Status, a: u32) -> u32
    ensures { result ≡ pick (eqb a 0xFE) (status_word s) 0 }
{
    if a == 0xfe { status_word(s) } else { 0 }
}

fn put_word(out: &mut [u8], i: usize, w: u32)
    requires { 2 * i + 2 ≤ length out.old }
    ensures { out.new ≡ put_word out.old i w }
{
    let [_, _, high, low] = w.to_be_bytes();
    out[2 * i] = high;
    out[2 * i + 1] = low;
}

// How many of n registers from a on stand before the end.
fn until(a: u32, n: usize, end: u32) -> usize
    ensures { result ≡ min n (end - a) }
{
    n.min(end.saturating_sub(a) as usize)
}

// Fills the places from `from` on, below `to`, of a read from register a on with the words that `word` gives of the registers there.
fn fill_part<F: Fn(u32) -> u32>(out: &mut [u8], a: u32, from: usize, to: usize, word: F)
    requires room { (from ≤ to) × (a + to ≤ 256) × (2 * to ≤ length out.old) }
    requires callable { (i : ℕ) → from ≤ i → i < to → F.pre word (a + i) }
    ensures { (m : _) → ((i w : ℕ) → from ≤ i → i < to → F.post word (a + i) w → w ≡ register_word m (a + i)) → Filled m a from to out.old out.new }
{
    for i in from..to {
        put_word(out, i, word(a + i as u32));
    }
}

// Fills the first 2n bytes with n consecutive registers. Each part of the model by itself: a loop over the whole model would test each
// register for its part, and hold all of the model in memory.
pub fn fill_words(m: Model, a: u32, n: usize, out: &mut [u8])
    requires { (is_sound m ≡ true) × (176 ≤ a) × (a + n ≤ 256) × (2 * n ≤ length out.old) }
    ensures { out.new ≡ fill_words m a out.old n }
{
    let setup = m.setup;
    let flight = m.flight;
    let temperature = m.temperature;
    let status = m.status;
    let calendar_end = until(a, n, 0xb4);
    let setup_end = until(a, n, 0xc4);
    let flight_end = until(a, n, 0xe7);
    let temperature_end = until(a, n, 0xf8);
    fill_part(out, a, 0, calendar_end, |x| valid_word(m, x));
    fill_part(out, a, calendar_end, setup_end, |x| setup_word(&setup, x));
    fill_part(out, a, setup_end, flight_end, |x| flight_word(flight, x));
    fill_part(
        out,
        a,
        flight_end,
        temperature_end,
        |x| temperature_word(temperature, x),
    );
    fill_part(out, a, temperature_end, n, |x| last_word(status, x));
}

// The model after an accepted read: reading FEh clears the status.
pub fn read_model(m: Model, a: u32, n: usize) -> Model
    requires { a + n ≤ 256 }
    ensures { result ≡ read_model m a n }
{
    // Early returns, and the field set by hand: with one condition, or a struct update, a list copies the model's bytes at each call.
    if 0xfe < a {
        return m;
    }
    if a + n as u32 <= 0xfe {
        return m;
    }
    let mut next = m;
    let status = no_bits();
    next.status = status;
    next
}
