// The line `frames`: the model's set-up as bus frames.
ghost use Rattle.std.specs.Prelude.{◌≡◌, true, map};
ghost use Rattle.device.specs.Model.{is_sound};
ghost use Rattle.setup_frames.specs.Sending.{cut};
ghost use Rattle.text.specs.Text.{ended, ended_each};
ghost use Rattle.text.specs.OwnPut.{Puts};
ghost use Rattle.item_answer.specs.Words.{frame_line};
ghost use Rattle.item_answer.specs.Answer.{frames_told};
ghost use Rattle.item_keep_code.specs.OwnAnswered.{AnswersFor, FurtherFor};
ghost use Rattle.item_keep_code.specs.OwnFrames.{Holds};

use crate::Answered;
use device::Model;
use text_code::{bytes_from, first_bytes, first_words};

// Frames one after the other in the first bytes, and their lengths.
#[derive(Clone, Copy)]
struct FrameBytes {
    bytes: [u8; 33],
    lengths: [u32; 8],
    used: usize,
    count: usize,
}

// How many frames there are.
pub fn put_frames(buf: &mut [u8], at: usize, m: Model) -> Answered
    requires { is_sound m ≡ true }
    ensures { AnswersFor (λ i. i.model ≡ m) buf.old at frames_told result buf.new }
{
    let all = frames_of(m);
    let a = numeral::put_text(buf, at, b"frames ");
    let end = numeral::put_decimal(buf, a, all.count as u64);
    Answered {
        end,
        refused: false,
    }
}

// A line for each frame.
pub fn put_frame_lines(buf: &mut [u8], at: usize, m: Model) -> usize
    requires { is_sound m ≡ true }
    ensures { FurtherFor (λ i. i.model ≡ m) buf.old at frames_told result buf.new }
{
    let all = frames_of(m);
    put_each(
        buf,
        at,
        first_bytes(&all.bytes, all.used),
        first_words(&all.lengths, all.count),
    )
}

fn frames_of(m: Model) -> FrameBytes
    requires { is_sound m ≡ true }
    ensures { Holds m result.bytes result.lengths result.used result.count }
{
    let mut bytes = [0u8; 33];
    let mut lengths = [0u32; 8];
    match setup_frames::setup_frames(m, &mut bytes, &mut lengths) {
        Ok(counts) => FrameBytes {
            bytes,
            lengths,
            used: counts.bytes,
            count: counts.frames,
        },
        Err(_) => FrameBytes {
            bytes,
            lengths,
            used: 0,
            count: 0,
        },
    }
}

// Frames that stand one after the other, each with a length of its own.
fn put_each(buf: &mut [u8], at: usize, bytes: &[u8], lengths: &[u32]) -> usize
    ensures { Puts buf.old at (ended_each (map frame_line (cut lengths.now bytes.now))) result buf.new }
{
    let mut place = at;
    let mut left = bytes;
    for n in lengths {
        let n = *n as usize;
        place = put_line(buf, place, first_bytes(left, n));
        left = bytes_from(left, n);
    }
    place
}

fn put_line(buf: &mut [u8], at: usize, frame: &[u8]) -> usize
    ensures { Puts buf.old at (ended (frame_line frame.now)) result buf.new }
{
    let a = item_words_code::kept::put_frame(buf, at, frame);
    numeral::put_text(buf, a, b"\n")
}
