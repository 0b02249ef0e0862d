// Deliveries.
ghost use Rattle.wording.specs.Text.{PutEach};
ghost use Rattle.wording.specs.Wording.{delivery_answer, delivery};

use crate::refusals::put_refusal;
use device::Answer;

// The kind, and the answer.
pub fn put_delivery(out: &mut [u8], at: usize, kind: &[u8], answer: Answer) -> usize
    ensures { PutEach out.old at (delivery kind.now answer) result out.new }
{
    let a = numeral::put_text(out, at, kind);
    let b = put_answer(out, a, answer);
    numeral::put_text(out, b, b"\n")
}

fn put_answer(out: &mut [u8], at: usize, answer: Answer) -> usize
    ensures { PutEach out.old at (delivery_answer answer) result out.new }
{
    match answer {
        Answer::Refused(refusal) => put_refusal(out, at, refusal),
        Answer::Good => numeral::put_text(out, at, b" good"),
        Answer::Failed => numeral::put_text(out, at, b" failed"),
        _ => at,
    }
}
