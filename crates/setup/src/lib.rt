// The bit fields of the set-up registers 34h to 43h. A set-up is the sixteen words, 34h first.
#![tactic(auto)]

ghost use Rattle.std.specs.Prelude.{◌≡◌, ◌<◌, get_or};
ghost use Rattle.setup.specs.Setup.{factory, alarm_word, hit_count, timeout, port_cycle, flight_unset, temperature_unset, event_continuous, difference_period, difference_count, temperature_period, temperature_count, interrupt_enabled, each_interrupt, clock_stands, alarm_mode};
ghost use Rattle.setup.specs.Table11.{stop_row, timeout_row};

use unit::Ticks;

// The places of the registers 35h, 38h, .. in a set-up.
const R35: usize = 0x35 - 0x34;

const R38: usize = 0x38 - 0x34;

const R39: usize = 0x39 - 0x34;

const R3F: usize = 0x3f - 0x34;

const R40: usize = 0x40 - 0x34;

const R42: usize = 0x42 - 0x34;

const R43: usize = 0x43 - 0x34;

// The word at a place of the set-up.
pub fn word(s: [u16; 16], i: usize) -> u32
    requires { i < 16 }
    ensures { result ≡ get_or s i 0 }
{
    u32::from(s[i])
}

// The factory values.
pub fn factory() -> [u16; 16]
    ensures { result ≡ factory }
{
    [0, 0, 0, 0, 0x10, 0, 0, 0, 0, 0, 0, 0, 0, 0, 0, 0]
}

pub fn alarm_word(s: [u16; 16]) -> u32
    ensures { result ≡ alarm_word s }
{
    word(s, R35)
}

// H, the number of hits of each measured direction.
pub fn hit_count(s: [u16; 16]) -> u32
    ensures { result ≡ hit_count s }
{
    stop_row(word(s, R39) / 8192 % 8)
}

// What the tables below give for a number that no three bits hold, and so no register: as their last rows.
const HITS_PAST_TABLE: u32 = 6;

const TIMEOUT_PAST_TABLE: u32 = 16384;

// STOP[2:0] as data sheet 000's Table 11 prints it: the number of hits.
pub fn stop_row(stop: u32) -> u32
    ensures { result ≡ stop_row stop }
{
    match stop {
        0b000 => 1,
        0b001 => 2,
        0b010 => 3,
        0b011 => 4,
        0b100 => 5,
        0b101 => 6,
        0b110 => 6,
        0b111 => 6,
        _ => HITS_PAST_TABLE,
    }
}

// TIMOUT[2:0] as data sheet 000's Table 11 prints it: the timeout in microseconds.
pub fn timeout_row(timeout: u32) -> u32
    ensures { result ≡ timeout_row timeout }
{
    match timeout {
        0b000 => 128,
        0b001 => 256,
        0b010 => 512,
        0b011 => 1024,
        0b100 => 2048,
        0b101 => 4096,
        0b110 => 8192,
        0b111 => 16384,
        _ => TIMEOUT_PAST_TABLE,
    }
}

// TIMOUT.
pub fn timeout(s: [u16; 16]) -> u32
    ensures { result ≡ timeout s }
{
    word(s, R39) % 8
}

// PORTCYC.
pub fn port_cycle(s: [u16; 16]) -> u32
    ensures { result ≡ port_cycle s }
{
    word(s, R40) % 4
}

// PL or DPL is zero.
pub fn flight_unset(s: [u16; 16]) -> bool
    ensures { result ≡ flight_unset s }
{
    let w = word(s, R38);
    w / 256 % 256 == 0 || w / 16 % 16 == 0
}

// TP does not select all four ports.
pub fn temperature_unset(s: [u16; 16]) -> bool
    ensures { result ≡ temperature_unset s }
{
    word(s, R40) / 32 % 4 != 0b11
}

// EOSC.
pub fn clock_stands(s: [u16; 16]) -> bool
    ensures { result ≡ clock_stands s }
{
    word(s, R43) / 16 % 2 == 1
}

// ET_CONT.
pub fn event_continuous(s: [u16; 16]) -> bool
    ensures { result ≡ event_continuous s }
{
    word(s, R42) / 256 % 2 == 1
}

pub fn difference_period(s: [u16; 16]) -> Ticks
    ensures { result ≡ difference_period s }
{
    Ticks(16384 * (word(s, R3F) / 4096 % 16 + 1))
}

pub fn difference_count(s: [u16; 16]) -> u8
    ensures { result ≡ difference_count s }
{
    (word(s, R3F) / 128 % 32 + 1) as u8
}

pub fn temperature_period(s: [u16; 16]) -> Ticks
    ensures { result ≡ temperature_period s }
{
    Ticks(32768 * (word(s, R3F) / 2 % 64 + 1))
}

pub fn temperature_count(s: [u16; 16]) -> u8
    ensures { result ≡ temperature_count s }
{
    (word(s, R40) / 2048 % 32 + 1) as u8
}

// INT_EN.
pub fn interrupt_enabled(s: [u16; 16]) -> bool
    ensures { result ≡ interrupt_enabled s }
{
    word(s, R42) / 512 % 2 == 1
}

// CONT_INT.
pub fn each_interrupt(s: [u16; 16]) -> bool
    ensures { result ≡ each_interrupt s }
{
    word(s, R42) / 128 % 2 == 1
}

// AM.
pub fn alarm_mode(s: [u16; 16]) -> u32
    ensures { result ≡ alarm_mode s }
{
    word(s, R43) / 4 % 4
}
