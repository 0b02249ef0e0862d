// The probe table.
ghost use Rattle.std.specs.Prelude.{◌≡◌, ◌++◌, ◌+◌, ◌≤◌, length};
ghost use Rattle.text.specs.OwnPut.{Puts};
ghost use Rattle.numeral.specs.Ascii.{ascii};
ghost use Rattle.numeral.specs.Print.{decimal};
ghost use Rattle.item_answer.specs.Answer.{degrees_told, degrees_of};
ghost use Rattle.item_keep_code.specs.OwnAdded.{ProbeAdds};
ghost use Rattle.item_keep_code.specs.OwnAnswered.{AnswersFor};

use crate::refused::put_refused;
use crate::{Added, Answered};
use refusal::Refusal;

// How many entries a table has at most.
const MOST: usize = 1024;

// The line `probe`: entries more after the first `used`, or none where there is no room for all.
pub fn put_probe(
    buf: &mut [u8],
    at: usize,
    entries: &[u32],
    table: &mut [u32],
    used: usize,
) -> Added
    requires { (used ≤ 1024) × (1024 ≤ length table.old) }
    ensures { ProbeAdds buf.old at entries.now table.old used result table.new buf.new }
{
    if MOST - used < entries.len() {
        return Added {
            fits: false,
            count: used,
            end: at,
        };
    }
    let count = used + entries.len();
    table[used..count].copy_from_slice(entries);
    let end = put_count(buf, at, count as u64);
    Added {
        fits: true,
        count,
        end,
    }
}

// `probe K`
fn put_count(buf: &mut [u8], at: usize, count: u64) -> usize
    ensures { Puts buf.old at (ascii "probe " ++ decimal count) result buf.new }
{
    let a = numeral::put_text(buf, at, b"probe ");
    numeral::put_decimal(buf, a, count)
}

// The line `degrees`, by the item's table.
pub fn put_degrees(buf: &mut [u8], at: usize, table: &[u32], a: u32, b: u32) -> Answered
    ensures { AnswersFor (λ i. i.probes ≡ table.now) buf.old at (λ i. degrees_told (degrees_of i.probes a b) i) result buf.new }
{
    match reading(table, a, b) {
        Ok(n) => {
            let p = numeral::put_text(buf, at, b"degrees ");
            let end = numeral::put_thousandths(buf, p, n);
            Answered {
                end,
                refused: false,
            }
        }
        Err(refusal) => put_refused(buf, at, b"degrees ", refusal),
    }
}

// By the item's own table, or PT1000's where it has none.
fn reading(table: &[u32], a: u32, b: u32) -> Result<u32, Refusal>
    ensures { result ≡ degrees_of table.now a b }
{
    if table.len() == 0 {
        thermometer::degrees(a, b)
    } else {
        thermometer::degrees_by(table, a, b)
    }
}
