// The probe table.
ghost use Rattle.std.specs.Prelude.{◌≡◌, take};
ghost use Rattle.item_analysis.specs.Kept.{kept_each};
ghost use Rattle.item_analysis.specs.Lines.{probe_line, degrees_of, degrees_told, degrees_line};

use crate::kept::put;
use item_state::counts::{PROBES, USED, count};
use item_state::output::first_words;
use refusal::Refusal;

// The line `probe`: the first n numbers.
pub fn probe(
    numbers: &[u32],
    n: usize,
    probes: &mut [u32],
    counts: &mut [usize; 22],
    answers: &mut [u8],
)
    ensures { record { probes = probes.exit.now; log = record { counts = counts.exit.now; answers = answers.new } } ≡ probe_line (take n numbers.now) record { probes = probes.entry.now; log = record { counts = counts.entry.now; answers = answers.old } } }
{
    let end = add(first_words(numbers, n), probes, counts[PROBES]);
    counts[PROBES] = end;
    counts[USED] = phrase::kept::put_probe(answers, counts[USED], end as u64);
}

// Adds entries behind the first n, as far as there is room, and answers how many there are then.
fn add(entries: &[u32], probes: &mut [u32], n: usize) -> usize
    ensures { record { values = probes.new; used = result } ≡ kept_each entries.now record { values = probes.old; used = n } }
{
    let mut end = n;
    for entry in entries {
        end = put(probes, end, *entry);
    }
    end
}

// The line `degrees`.
pub fn degrees(words: &[u32], probes: &[u32], counts: &mut [usize; 22], answers: &mut [u8])
    ensures { record { counts = counts.exit.now; answers = answers.new } ≡ degrees_line words.now probes.now record { counts = counts.entry.now; answers = answers.old } }
{
    if words.len() < 2 {
        return;
    }
    let reading = reading(first_words(probes, counts[PROBES]), words[0], words[1]);
    put_reading(reading, counts, answers);
}

// By the item's own table, or PT1000's where it has none.
#[tactic(auto, unfolding(crate::specs::Lines::degrees_of))]
fn reading(table: &[u32], probe: u32, reference: u32) -> Result<u32, Refusal>
    ensures { result ≡ degrees_of table.now probe reference }
{
    if table.is_empty() {
        thermometer::degrees(probe, reference)
    } else {
        thermometer::degrees_by(table, probe, reference)
    }
}

fn put_reading(reading: Result<u32, Refusal>, counts: &mut [usize; 22], answers: &mut [u8])
    ensures { record { counts = counts.exit.now; answers = answers.new } ≡ degrees_told reading record { counts = counts.entry.now; answers = answers.old } }
{
    match reading {
        Ok(n) => {
            let used = phrase::kept::put_degrees(answers, counts[USED], n);
            count(counts, 0, used);
        }
        Err(refusal) => {
            let used = phrase::heads::put_degrees_refused(answers, counts[USED], refusal);
            count(counts, 1, used);
        }
    }
}
