// The interrupt status register FEh.
#![tactic(auto)]

ghost use Rattle.std.specs.Prelude.{◌≡◌, ◌≤◌};
ghost use Rattle.unit.specs.Choice.{pick};
ghost use Rattle.device.specs.Status.{no_bits, joined, status_word, flight_bits, temperature_bits, alarm_bit, init_bit, halt_bit, por_bit, ldo_bit, flash_bit, without_ldo, sets_own_bit};

use device::{Schedule, Status};
use schedule::{in_event, is_last};
use unit::any_of;

pub fn no_bits() -> Status
    ensures { result ≡ no_bits }
{
    Status {
        timeout: false,
        alarm: false,
        tof: false,
        te: false,
        ldo: false,
        tofevtmg: false,
        tempevtmg: false,
        flash: false,
        halt: false,
        init: false,
        por: false,
    }
}

// The bits of both.
pub fn joined(a: Status, b: Status) -> Status
    ensures { result ≡ joined a b }
{
    Status {
        timeout: any_of(a.timeout, b.timeout),
        alarm: any_of(a.alarm, b.alarm),
        tof: any_of(a.tof, b.tof),
        te: any_of(a.te, b.te),
        ldo: any_of(a.ldo, b.ldo),
        tofevtmg: any_of(a.tofevtmg, b.tofevtmg),
        tempevtmg: any_of(a.tempevtmg, b.tempevtmg),
        flash: any_of(a.flash, b.flash),
        halt: any_of(a.halt, b.halt),
        init: any_of(a.init, b.init),
        por: any_of(a.por, b.por),
    }
}

fn weight(bit: bool, value: u32) -> u32
    ensures { (result ≡ pick bit value 0) × (result ≤ value) }
{
    if bit { value } else { 0 }
}

pub fn status_word(s: Status) -> u32
    ensures { result ≡ status_word s }
{
    weight(s.timeout, 32768)
        + weight(s.alarm, 16384)
        + weight(s.tof, 4096)
        + weight(s.te, 2048)
        + weight(s.ldo, 1024)
        + weight(s.tofevtmg, 512)
        + weight(s.tempevtmg, 256)
        + weight(s.flash, 128)
        + weight(s.halt, 32)
        + weight(s.init, 8)
        + weight(s.por, 4)
}

// Whether settling a measurement sets the bit of its kind: a single one does, one of an event where each interrupts.
fn sets_own_bit(k: Schedule, each: bool) -> bool
    ensures { result ≡ sets_own_bit k each }
{
    !in_event(k) || each
}

// What settling a flight measurement sets.
pub fn flight_bits(k: Schedule, each: bool, settles: bool, failed: bool) -> Status
    ensures { result ≡ flight_bits k each settles failed }
{
    if !settles {
        return no_bits();
    }
    Status {
        timeout: failed,
        tof: sets_own_bit(k, each),
        tofevtmg: is_last(k),
        ..no_bits()
    }
}

// What settling a temperature measurement sets. An open port is a timeout, a short one is none.
pub fn temperature_bits(k: Schedule, each: bool, settles: bool, opened: bool) -> Status
    ensures { result ≡ temperature_bits k each settles opened }
{
    if !settles {
        return no_bits();
    }
    Status {
        timeout: opened,
        te: sets_own_bit(k, each),
        tempevtmg: is_last(k),
        ..no_bits()
    }
}

pub fn alarm_bit(rings: bool) -> Status
    ensures { result ≡ alarm_bit rings }
{
    Status {
        alarm: rings,
        ..no_bits()
    }
}

pub fn init_bit() -> Status
    ensures { result ≡ init_bit }
{
    Status {
        init: true,
        ..no_bits()
    }
}

pub fn halt_bit() -> Status
    ensures { result ≡ halt_bit }
{
    Status {
        halt: true,
        ..no_bits()
    }
}

pub fn por_bit() -> Status
    ensures { result ≡ por_bit }
{
    Status {
        por: true,
        ..no_bits()
    }
}

pub fn ldo_bit() -> Status
    ensures { result ≡ ldo_bit }
{
    Status {
        ldo: true,
        ..no_bits()
    }
}

pub fn flash_bit() -> Status
    ensures { result ≡ flash_bit }
{
    Status {
        flash: true,
        ..no_bits()
    }
}

pub fn without_ldo(s: Status) -> Status
    ensures { result ≡ without_ldo s }
{
    Status { ldo: false, ..s }
}
