// The two units of time, choices between values, and a word as a wider number.
#![tactic(auto)]

ghost use Rattle.std.specs.Prelude.{◌≡◌, ◌<◌};
ghost use Rattle.unit.specs.Choice.{pick, either};

// Periods of the 32,768 Hz clock. Never stands for quanta.
#[derive(Clone, Copy)]
pub struct Ticks(pub u32);

// 65,536ths of a 4 MHz period; wide enough for sums of hit words. Never stands for ticks.
#[derive(Clone, Copy)]
pub struct Quanta(pub u64);

pub fn choose(test: bool, yes: Ticks, no: Ticks) -> Ticks
    ensures { result.0 ≡ pick test yes.0 no.0 }
{
    if test { yes } else { no }
}

pub fn any_of(a: bool, b: bool) -> bool
    ensures { result ≡ either a b }
{
    a || b
}

// A word as a wider number, which brings its bound along.
pub fn wide(x: u32) -> u64
    ensures { (result ≡ x) × (result < 4294967296) }
{
    u64::from(x)
}
