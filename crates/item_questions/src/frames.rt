// The line `frames`.
ghost use Rattle.std.specs.Prelude.{◌≡◌};
ghost use Rattle.wording.specs.Text.{PutEach};
ghost use Rattle.wording.specs.Wording.{frame_lines};
ghost use Rattle.item_questions.specs.Answers.{frames_told, frames_line};
ghost use Rattle.item_questions.specs.Cut.{cut};

use device::Model;
use item_state::counts::{USED, count, more};
use item_state::output::{bytes_from, first_bytes, first_words};

pub fn frames(m: Model, counts: &mut [usize; 22], answers: &mut [u8])
    ensures { record { counts = counts.exit.now; answers = answers.new } ≡ frames_line m record { counts = counts.entry.now; answers = answers.old } }
{
    let mut bytes = [0u8; 33];
    let mut lengths = [0u32; 8];
    let framed = setup_frames::setup_frames(m, &mut bytes, &mut lengths);
    match framed {
        Ok(put) => {
            let n = put.frames;
            tell(&bytes, first_words(&lengths, n), n, counts, answers)
        }
        Err(refusal) => {
            let used = phrase::frames::put_frames_refused(answers, counts[USED], refusal);
            count(counts, 1, used);
        }
    }
}

// So many frames, which stand one behind the other, each with a length of its own.
fn tell(bytes: &[u8], lengths: &[u32], n: usize, counts: &mut [usize; 22], answers: &mut [u8])
    ensures { record { counts = counts.exit.now; answers = answers.new } ≡ frames_told n (cut bytes.now lengths.now) record { counts = counts.entry.now; answers = answers.old } }
{
    let a = phrase::frames::put_frames(answers, counts[USED], n as u64);
    let used = put_each(answers, a, bytes, lengths);
    count(counts, 0, used);
}

// Each frame as a line.
fn put_each(answers: &mut [u8], at: usize, bytes: &[u8], lengths: &[u32]) -> usize
    ensures { PutEach answers.old at (frame_lines (cut bytes.now lengths.now)) result answers.new }
{
    let mut place = at;
    let mut from = 0;
    for length in lengths {
        let n = *length as usize;
        place = phrase::frames::put_frame(answers, place, first_bytes(bytes_from(bytes, from), n));
        from = more(from, n);
    }
    place
}
