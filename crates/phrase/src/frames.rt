// The set-up as frames.
ghost use Rattle.refusal.specs.Number.{number};
ghost use Rattle.wording.specs.Text.{PutEach};
ghost use Rattle.wording.specs.Wording.{byte_texts, frame_texts, frames_head, frames_refused};

use crate::end::put_count;
use crate::kept::put_refused;
use refusal::Refusal;

// `frames K`, before its lines
pub fn put_frames(out: &mut [u8], at: usize, n: u64) -> usize
    ensures { PutEach out.old at (frames_head n) result out.new }
{
    let a = numeral::put_text(out, at, b"frames ");
    put_count(out, a, n, b"\n")
}

// `frame B ..`
pub fn put_frame(out: &mut [u8], at: usize, frame: &[u8]) -> usize
    ensures { PutEach out.old at (frame_texts frame.now) result out.new }
{
    let a = numeral::put_text(out, at, b"frame");
    let b = put_bytes(out, a, frame);
    numeral::put_text(out, b, b"\n")
}

// A blank and two digits for each byte.
fn put_bytes(out: &mut [u8], at: usize, bytes: &[u8]) -> usize
    ensures { PutEach out.old at (byte_texts bytes.now) result out.new }
{
    let mut place = at;
    for byte in bytes {
        let blank = numeral::put_text(out, place, b" ");
        place = numeral::put_hex(out, blank, 2, u32::from(*byte));
    }
    place
}

pub fn put_frames_refused(out: &mut [u8], at: usize, refusal: Refusal) -> usize
    ensures { PutEach out.old at (frames_refused (number refusal)) result out.new }
{
    put_refused(out, at, b"frames", refusal)
}
