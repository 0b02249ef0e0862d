// The calendar clock: its fields. Its step by one tick, its register words and the alarm are defined in specs/; `clock` has the code.
#![tactic(auto)]

use unit::Ticks;

// Years count from 2000, hours go from 0 to 23. The second holds `ticks` of the 32,768 Hz clock. `twelve` is the form in
// which 31h reads the hours, 12-hour or 24-hour; nothing else depends on it.
#[derive(Clone, Copy)]
pub struct Clock {
    pub year: u32,
    pub month: u32,
    pub date: u32,
    pub weekday: u32,
    pub hour: u32,
    pub minute: u32,
    pub second: u32,
    pub ticks: Ticks,
    pub twelve: bool,
}
