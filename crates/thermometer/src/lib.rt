// A resistance thermometer: the temperature of a probe from its word and the word of the reference resistor.
#![tactic(auto)]

ghost use Rattle.std.specs.Prelude.{◌≡◌, ◌<◌, ◌≤◌, length};
ghost use Rattle.thermometer.specs.Table.{is_rising, is_accepted};
ghost use Rattle.thermometer.specs.Usable.{Usable};
ghost use Rattle.unit.specs.Says.{Says};
ghost use Rattle.thermometer.specs.Degrees.{resistance, interpolated, Between, thousandths, first, last, degrees_over, degrees, degrees_by};
ghost use Rattle.refusal.specs.Number.{number_told, value_told};

mod table;

use refusal::Refusal;
use table::PT1000;

// The word of a failed measurement.
const FAILED: u32 = 0xFFFFFFFF;

// The reference of 1,000 ohms, in milliohms.
const REFERENCE: u64 = 1000000;

// Thousandths in a degree.
const DEGREE: u64 = 1000;

// What a caller's table may hold: entries, and milliohms in one.
const FEWEST: usize = 2;

const MOST: usize = 512;

const HIGHEST: u32 = 10000000;

// Milliohms, by the reference of 1,000 ohms.
fn resistance(probe: u32, reference: u32) -> u64
    requires { 0 < reference }
    ensures { result ≡ resistance probe reference }
{
    u64::from(probe) * REFERENCE / u64::from(reference)
}

// The place of the last entry that is at most r, by halving.
fn place(table: &[u32], r: u32) -> usize
    requires { Usable table.now × (first table.now ≤ r) × (r < last table.now) }
    ensures { Between table.now result r }
{
    table.partition_point(|e| *e <= r) - 1
}

// Thousandths of a degree between the entries e and f of the degrees i and i + 1.
fn interpolated(i: usize, e: u32, f: u32, r: u32) -> u32
    requires { (i < 512) × (e ≤ r) × (r < f) }
    ensures { result ≡ interpolated i e f r }
{
    let part = DEGREE * u64::from(r - e) / u64::from(f - e);
    (DEGREE * i as u64 + part) as u32
}

// Thousandths of a degree at the resistance r.
fn thousandths(table: &[u32], r: u32) -> u32
    requires { Usable table.now × (first table.now ≤ r) × (r ≤ last table.now) }
    ensures { result ≡ thousandths table.now r }
{
    let end = table.len() - 1;
    if table[end] <= r {
        return (DEGREE * end as u64) as u32;
    }
    let i = place(table, r);
    interpolated(i, table[i], table[i + 1], r)
}

// The answer over a table, or number 13.
fn degrees_over(table: &[u32], probe: u32, reference: u32) -> Result<u32, Refusal>
    requires { Usable table.now }
    ensures { result ≡ degrees_over table.now probe reference }
{
    if probe == FAILED {
        return Err(Refusal::OffTable);
    }
    if reference == FAILED {
        return Err(Refusal::OffTable);
    }
    if reference == 0 {
        return Err(Refusal::OffTable);
    }
    let r = resistance(probe, reference);
    let end = table.len() - 1;
    if r < u64::from(table[0]) {
        return Err(Refusal::OffTable);
    }
    if u64::from(table[end]) < r {
        return Err(Refusal::OffTable);
    }
    Ok(thousandths(table, r as u32))
}

// The temperature of a PT1000 probe in thousandths of a degree, from its word and the word of its reference resistor of 1,000 ohms.
// Number 13: a word is FFFFFFFFh, the reference is 0, or the resistance is off the table.
pub fn degrees(probe: u32, reference: u32) -> Result<u32, Refusal>
    ensures { Says number_told value_told result (degrees probe reference) }
{
    degrees_over(&PT1000, probe, reference)
}

// Whether each entry is above the one before it.
fn is_rising(table: &[u32]) -> bool
    ensures { result ≡ is_rising table.now }
{
    table.is_sorted_by(|a, b| a < b)
}

// Whether a table has 2 to 512 entries that rise, none above 10,000,000: where they rise, the last is the largest.
fn is_accepted(table: &[u32]) -> bool
    ensures { result ≡ is_accepted table.now }
{
    let n = table.len();
    if n < FEWEST {
        return false;
    }
    if MOST < n {
        return false;
    }
    if HIGHEST < table[n - 1] {
        return false;
    }
    is_rising(table)
}

// The same of a probe with a table of its own, milliohms at each whole degree from 0. Number 14 for a table of fewer than
// 2 or more than 512 entries, one that does not rise, and one with an entry above 10,000,000; then number 13, as above.
pub fn degrees_by(table: &[u32], probe: u32, reference: u32) -> Result<u32, Refusal>
    ensures { Says number_told value_told result (degrees_by table.now probe reference) }
{
    if is_accepted(table) {
        degrees_over(table, probe, reference)
    } else {
        Err(Refusal::BadTable)
    }
}
