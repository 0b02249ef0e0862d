// A write of consecutive registers, judged as a whole.
ghost use Rattle.std.specs.Prelude.{◌≡◌, ◌<◌, ◌≤◌, ◌+◌, ◌*◌, true, length, [], ◌∷◌};
ghost use Rattle.unit.specs.Choice.{negate};
ghost use Rattle.calendar.specs.Words.{alarm_valid};
ghost use Rattle.setup.specs.Setup.{alarm_word};
ghost use Rattle.device.specs.Model.{is_sound};
ghost use Rattle.device.specs.Registers.{calendar_word};
ghost use Rattle.device.specs.Write.{written, setup_after, ticks_after, clock_after, write_invalid, write_model};

use crate::read::calendar_word;
use calendar::Clock;
use device::Model;
use unit::Ticks;

// The word of register a after the write, by the one it has.
fn written(words: &[u8], op: u32, n: usize, a: u32, current: u32) -> u32
    requires { (48 ≤ op) × (op + n ≤ 68) × (2 * n ≤ length words.now) }
    ensures { result ≡ written words.now op n a current }
{
    if op <= a && a < op + n as u32 {
        frame::word_at(words, (a - op) as usize)
    } else {
        current
    }
}

// The set-up after the write; the calendar's registers are not in it.
fn setup_after(setup: [u16; 16], words: &[u8], op: u32, n: usize) -> [u16; 16]
    requires { (48 ≤ op) × (op + n ≤ 68) × (2 * n ≤ length words.now) }
    ensures { result ≡ setup_after words.now op setup n }
{
    let mut s = setup;
    for i in 0..n {
        let a = op as usize + i;
        if 0x34 <= a {
            s[a - 0x34] = frame::word_at(words, i) as u16;
        }
    }
    s
}

// The ticks of the second after the write.
fn ticks_after(m: Model, words: &[u8], op: u32, n: usize) -> Ticks
    requires { (48 ≤ op) × (op + n ≤ 68) × (2 * n ≤ length words.now) }
    ensures { result ≡ ticks_after words.now op n m }
{
    if op <= 0x30 && 0x30 < op + n as u32 {
        clock::words::ticks_in(frame::word_at(words, (0x30 - op) as usize))
    } else {
        m.clock.ticks
    }
}

// The words of 30h to 33h after the write.
fn calendar_after(m: Model, words: &[u8], op: u32, n: usize) -> [u32; 4]
    requires { (48 ≤ op) × (op + n ≤ 68) × (2 * n ≤ length words.now) }
    ensures { result ≡ written words.now op n 0x30 (calendar_word m 0xB0) ∷ written words.now op n 0x31 (calendar_word m 0xB1) ∷ written words.now op n 0x32 (calendar_word m 0xB2) ∷ written words.now op n 0x33 (calendar_word m 0xB3) ∷ [] }
{
    [
        written(words, op, n, 0x30, calendar_word(m, 0xb0)),
        written(words, op, n, 0x31, calendar_word(m, 0xb1)),
        written(words, op, n, 0x32, calendar_word(m, 0xb2)),
        written(words, op, n, 0x33, calendar_word(m, 0xb3)),
    ]
}

fn clock_after(m: Model, words: &[u8], op: u32, n: usize) -> Clock
    requires { (48 ≤ op) × (op + n ≤ 68) × (2 * n ≤ length words.now) }
    ensures { result ≡ clock_after words.now op n m }
{
    // Not by `calendar_after`, which is to have one caller, in whose place the compiler then puts it: as a call it has a list keep the
    // whole model in memory.
    clock::words::clock_from(
        written(words, op, n, 0x30, calendar_word(m, 0xb0)),
        written(words, op, n, 0x31, calendar_word(m, 0xb1)),
        written(words, op, n, 0x32, calendar_word(m, 0xb2)),
        written(words, op, n, 0x33, calendar_word(m, 0xb3)),
        ticks_after(m, words, op, n),
    )
}

// Whether the clock or the alarm would be invalid.
pub fn write_invalid(m: Model, words: &[u8], op: u32, n: usize) -> bool
    requires { (is_sound m ≡ true) × (48 ≤ op) × (op + n ≤ 68) × (2 * n ≤ length words.now) }
    ensures { result ≡ write_invalid words.now op n m }
{
    // a write that leaves the calendar out leaves it valid
    if 0x33 < op {
        return alarm_invalid(m, words, op, n);
    }
    let [w30, w31, w32, w33] = calendar_after(m, words, op, n);
    let ticks = ticks_after(m, words, op, n);
    !clock::words::words_valid(w30, w31, w32, w33, ticks) || alarm_invalid(m, words, op, n)
}

fn alarm_invalid(m: Model, words: &[u8], op: u32, n: usize) -> bool
    requires { (is_sound m ≡ true) × (48 ≤ op) × (op + n ≤ 68) × (2 * n ≤ length words.now) }
    ensures { result ≡ negate (alarm_valid (alarm_word (setup_after words.now op m.setup n))) }
{
    // a write past 35h leaves the alarm valid
    op <= 0x35 && !clock::words::alarm_valid(setup::alarm_word(setup_after(m.setup, words, op, n)))
}

pub fn write_model(m: Model, words: &[u8], op: u32, n: usize) -> Model
    requires { (is_sound m ≡ true) × (48 ≤ op) × (op + n ≤ 68) × (2 * n ≤ length words.now) }
    ensures { result ≡ write_model words.now op n m }
{
    Model {
        setup: setup_after(m.setup, words, op, n),
        clock: if 0x33 < op {
            m.clock
        } else {
            clock_after(m, words, op, n)
        },
        ..m
    }
}
