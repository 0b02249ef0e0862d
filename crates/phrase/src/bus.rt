// Transactions.
ghost use Rattle.wording.specs.Text.{PutEach};
ghost use Rattle.wording.specs.Wording.{started, bus_answer, output_buffer, bus, set};

use crate::refusals::put_refusal;
use device::Answer;

// `bus`, the answer, and the output buffer.
pub fn put_bus(out: &mut [u8], at: usize, answer: Answer, buffer: &[u8]) -> usize
    ensures { PutEach out.old at (bus answer buffer.now) result out.new }
{
    let a = numeral::put_text(out, at, b"bus");
    let b = put_answer(out, a, answer);
    let c = put_buffer(out, b, buffer);
    numeral::put_text(out, c, b"\n")
}

// `set` and the answer.
pub fn put_set(out: &mut [u8], at: usize, answer: Answer) -> usize
    ensures { PutEach out.old at (set answer) result out.new }
{
    let a = numeral::put_text(out, at, b"set");
    let b = put_answer(out, a, answer);
    numeral::put_text(out, b, b"\n")
}

fn put_answer(out: &mut [u8], at: usize, answer: Answer) -> usize
    ensures { PutEach out.old at (bus_answer answer) result out.new }
{
    match answer {
        Answer::Refused(refusal) => put_refusal(out, at, refusal),
        Answer::Accepted(flight, temperature) => put_started(out, at, flight, temperature),
        _ => at,
    }
}

fn put_started(out: &mut [u8], at: usize, flight: bool, temperature: bool) -> usize
    ensures { PutEach out.old at (started flight temperature) result out.new }
{
    if flight {
        if temperature {
            return numeral::put_text(out, at, b" ok flight+temperature");
        }
        return numeral::put_text(out, at, b" ok flight");
    }
    if temperature {
        return numeral::put_text(out, at, b" ok temperature");
    }
    numeral::put_text(out, at, b" ok -")
}

// ` out ` and the buffer, where it has bytes.
fn put_buffer(out: &mut [u8], at: usize, buffer: &[u8]) -> usize
    ensures { PutEach out.old at (output_buffer buffer.now) result out.new }
{
    if buffer.len() == 0 {
        return at;
    }
    let start = numeral::put_text(out, at, b" out ");
    numeral::put_hex_bytes(out, start, buffer)
}
