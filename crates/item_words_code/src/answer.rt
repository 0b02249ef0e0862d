// What the chip's calls answer.
ghost use Rattle.std.specs.Prelude.{◌++◌};
ghost use Rattle.numeral.specs.Ascii.{ascii};
ghost use Rattle.text.specs.OwnPut.{Puts};
ghost use Rattle.item_answer.specs.Words.{started, answer_text, output_text};

use crate::refusals::put_refusal;
use device::Answer;

// What stands after the first word of a line: nothing of a tick or a stretch that is no refusal.
pub fn put_answer(buf: &mut [u8], at: usize, answer: Answer) -> usize
    ensures { Puts buf.old at (answer_text answer) result buf.new }
{
    match answer {
        Answer::Refused(refusal) => put_refusal(buf, at, refusal),
        Answer::Accepted(flight, temperature) => put_accepted(buf, at, flight, temperature),
        Answer::Good => numeral::put_text(buf, at, b"good"),
        Answer::Failed => numeral::put_text(buf, at, b"failed"),
        _ => at,
    }
}

fn put_accepted(buf: &mut [u8], at: usize, flight: bool, temperature: bool) -> usize
    ensures { Puts buf.old at (ascii "ok " ++ started flight temperature) result buf.new }
{
    if flight {
        if temperature {
            return numeral::put_text(buf, at, b"ok flight+temperature");
        }
        return numeral::put_text(buf, at, b"ok flight");
    }
    if temperature {
        return numeral::put_text(buf, at, b"ok temperature");
    }
    numeral::put_text(buf, at, b"ok -")
}

// ` out ` and the output buffer, where it has bytes.
pub fn put_output(buf: &mut [u8], at: usize, out: &[u8]) -> usize
    ensures { Puts buf.old at (output_text out.now) result buf.new }
{
    if out.len() == 0 {
        return at;
    }
    let start = numeral::put_text(buf, at, b" out ");
    numeral::put_hex_bytes(buf, start, out)
}
