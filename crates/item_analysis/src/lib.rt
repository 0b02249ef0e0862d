// The lines on what an item keeps beside its model: the record of differences and the probe table.
#![tactic(auto)]

mod differences;
mod kept;
mod questions;
mod table;

ghost use Rattle.std.specs.Prelude.{◌≡◌};
ghost use Rattle.item_analysis.specs.Lines.{analysis_line};

use device::Model;
use line::Content;

// Answers such a line. Any other is passed over.
pub fn answer_analysis(
    m: Model,
    content: Content,
    numbers: &[u32],
    counts: &mut [usize; 22],
    kept: &mut [i32],
    probes: &mut [u32],
    answers: &mut [u8],
)
    ensures { record { differences = kept.new; probes = probes.new; log = record { counts = counts.exit.now; answers = answers.new } } ≡ analysis_line content numbers.now m record { differences = kept.old; probes = probes.old; log = record { counts = counts.entry.now; answers = answers.old } } }
{
    match content {
        Content::Probe(n) => table::probe(numbers, n, probes, counts, answers),
        Content::Degrees => table::degrees(numbers, probes, counts, answers),
        Content::Record(n) => differences::record(m, numbers, n, kept, counts, answers),
        Content::Listing { old, first } => questions::listing(old, first, kept, counts, answers),
        Content::Quietest(width) => questions::quietest(width as usize, kept, counts, answers),
        _ => {}
    }
}
