// The record of differences.
ghost use Rattle.std.specs.Prelude.{map, ◌≡◌};
ghost use Rattle.difference.specs.Difference.{signed_of};
ghost use Rattle.item_analysis.specs.Kept.{kept_each};
ghost use Rattle.item_analysis.specs.Lines.{record_line, tof_diff, record_words};

use crate::kept::put;
use device::Model;
use item_state::counts::{RECORD, USED};
use item_state::output::first_words;
use item_state::told::value;

// The line `record`: the first n numbers, or TOF_DIFF as it stands.
pub fn record(
    m: Model,
    numbers: &[u32],
    n: usize,
    kept: &mut [i32],
    counts: &mut [usize; 22],
    answers: &mut [u8],
)
    ensures { record { differences = kept.new; log = record { counts = counts.exit.now; answers = answers.new } } ≡ record_line (record_words m numbers.now n) record { differences = kept.old; log = record { counts = counts.entry.now; answers = answers.old } } }
{
    if n == 0 {
        add_words(&[tof_diff(m)], kept, counts, answers);
    } else {
        add_words(first_words(numbers, n), kept, counts, answers);
    }
}

// E2h and E3h.
fn tof_diff(m: Model) -> u32
    ensures { result ≡ tof_diff m }
{
    difference::joined(
        value(converter::peek(m, 226)),
        value(converter::peek(m, 227)),
    )
}

fn add_words(words: &[u32], kept: &mut [i32], counts: &mut [usize; 22], answers: &mut [u8])
    ensures { record { differences = kept.new; log = record { counts = counts.exit.now; answers = answers.new } } ≡ record_line words.now record { differences = kept.old; log = record { counts = counts.entry.now; answers = answers.old } } }
{
    counts[RECORD] = store(words, kept, counts[RECORD]);
    counts[USED] = phrase::kept::put_record(answers, counts[USED], words);
}

// Adds differences behind the first n, as far as there is room, and answers how many there are then.
// By itself beside the table's `add`: one function over what is done with a word would need a closure with clauses.
fn store(words: &[u32], kept: &mut [i32], n: usize) -> usize
    ensures { record { values = kept.new; used = result } ≡ kept_each (map signed_of words.now) record { values = kept.old; used = n } }
{
    let mut end = n;
    for word in words {
        end = put(kept, end, difference::signed(*word));
    }
    end
}
