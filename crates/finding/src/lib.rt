// What a question or an analysis returns to a caller of the library: a number for its answer, and its words in a lent buffer.
#![tactic(auto)]

ghost use Rattle.std.specs.Prelude.{◌≡◌, ◌+◌, ◌≤◌, drop, length, take};
ghost use Rattle.layout.specs.Code.{Gives, filled};
ghost use Rattle.refusal.specs.Number.{number_told, value_told};
ghost use Rattle.setup_frames.specs.Frames.{values_framed};

use outcome::{ACCEPTED, put};
use refusal::Refusal;
use setup_frames::Counts;

// An answer of one word, size or place.
pub fn told<T: Copy>(answer: Result<T, Refusal>, words: &mut [T]) -> u32
    ensures { Gives number_told value_told answer words.old result words.new }
{
    match answer {
        Ok(word) => {
            put(words, 0, word);
            ACCEPTED
        }
        Err(refusal) => refusal.number(),
    }
}

// The counts of set-up frames.
pub fn framed(answer: Result<Counts, Refusal>, sizes: &mut [usize]) -> u32
    ensures { Gives number_told values_framed answer sizes.old result sizes.new }
{
    match answer {
        Ok(counts) => {
            put(sizes, 0, counts.bytes);
            put(sizes, 1, counts.frames);
            ACCEPTED
        }
        Err(refusal) => refusal.number(),
    }
}

// Copies a run of values into the first places of a buffer, as many as it has.
pub fn copy_run(values: &[i32], start: usize, width: usize, run: &mut [i32])
    requires { start + width ≤ length values.now }
    ensures { run.new ≡ filled run.old (take width (drop start values.now)) }
{
    // Value by value: `copy_from_slice` would need `memmove` from outside of the archive for C.
    for i in 0..width {
        if run.len() <= i {
            return;
        }
        run[i] = values[start + i];
    }
}
