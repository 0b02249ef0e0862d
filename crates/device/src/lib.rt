// The MAX35101 model as one value that each call takes and gives back: its clock, registers, measurements and events.
// What each call does with it is defined in specs/, and the laws of those definitions are in proofs/.
#![tactic(auto)]

use calendar::Clock;
use refusal::Refusal;
use unit::{Quanta, Ticks};

// The measurements of one kind: the one awaited, and the event.
#[derive(Clone, Copy)]
pub struct Schedule {
    // Ticks until the awaited measurement fails; 0 where none is awaited.
    pub left: Ticks,
    // Ticks until the event's next start.
    pub wait: Ticks,
    pub period: Ticks,
    // How many measurements the event makes, or a group of a continuous one.
    pub planned: u8,
    // How many of them, or of the current group, are started and settled.
    pub started: u8,
    pub settled: u8,
    // Whether the event that runs is a continuous one: it ends by HALT or Reset alone.
    pub continuous: bool,
    // Cycle count: good ones of the event, or of the current group.
    pub good: u16,
}

#[derive(Clone, Copy)]
pub struct Flight {
    pub schedule: Schedule,
    // The directions that the awaited or last measurement measures.
    pub up: bool,
    pub down: bool,
    // The differences of the good measurements of the event, or of the current group, summed with 2^31 added to each.
    pub sum: Quanta,
    // HIT 1 to 6, then AVG, as words of 32 bits.
    pub ups: [u32; 7],
    pub downs: [u32; 7],
    pub difference: u32,
}

#[derive(Clone, Copy)]
pub struct Temperature {
    pub schedule: Schedule,
    // Words of the good measurements of the event, or of the current group, port by port.
    pub sums: [Quanta; 4],
    pub ports: [u32; 4],
}

// The interrupt status, a field a bit.
#[derive(Clone, Copy)]
pub struct Status {
    pub timeout: bool,
    pub alarm: bool,
    pub tof: bool,
    pub te: bool,
    pub ldo: bool,
    pub tofevtmg: bool,
    pub tempevtmg: bool,
    pub flash: bool,
    pub halt: bool,
    pub init: bool,
    pub por: bool,
}

#[derive(Clone, Copy)]
pub struct Model {
    pub clock: Clock,
    // Registers 34h to 43h.
    pub setup: [u16; 16],
    pub status: Status,
    pub initialised: bool,
    // Whether the regulator that supplies the user flash is on.
    pub regulator: bool,
    pub flight: Flight,
    pub temperature: Temperature,
}

// What one tick did with the measurements of a kind.
#[derive(Clone, Copy)]
pub struct Report {
    pub started: bool,
    pub failed: bool,
}

// The ticks of a stretch, from 1 on, in which a measurement of a kind started and one failed; 0 for none.
#[derive(Clone, Copy)]
pub struct StretchReport {
    pub started: Ticks,
    pub failed: Ticks,
}

#[derive(Clone, Copy)]
pub enum Answer {
    Refused(Refusal),
    // A transaction, with the kinds that it started: flight, temperature.
    Accepted(bool, bool),
    // A tick: flight, temperature.
    Ticked(Report, Report),
    // A stretch of ticks: flight, temperature.
    Stretched(StretchReport, StretchReport),
    // A delivery.
    Good,
    Failed,
}

#[derive(Clone, Copy)]
pub struct Reply {
    pub answer: Answer,
    pub model: Model,
}

// A stretch under way: the model and the reports after so many of its ticks.
#[derive(Clone, Copy)]
pub struct Progress {
    pub model: Model,
    pub done: Ticks,
    pub flight: StretchReport,
    pub temperature: StretchReport,
}
