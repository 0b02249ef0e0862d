// What a reply of the chip comes to for its item.
ghost use Rattle.std.specs.Prelude.{◌≡◌};
ghost use Rattle.unit.specs.Choice.{pick};
ghost use Rattle.item_answer.specs.Answer.{starts as Answer·starts, is_refusal};
ghost use Rattle.item_chip_code.specs.OwnAnswered.{Tells};

use crate::Answered;
use device::Answer;
use item_answer::Carried;
use item_words_code::answer::put_answer;

// An answer after the line's first word, which `keyword` has with the blank after it.
pub fn tell(carried: Carried, answer: Answer, keyword: &[u8], buf: &mut [u8], at: usize) -> Answered
    ensures { Tells carried answer keyword.now buf.old at result buf.new }
{
    let a = numeral::put_text(buf, at, keyword);
    let end = put_answer(buf, a, answer);
    let refused = is_refusal(answer);
    Answered {
        carried,
        end,
        refused,
    }
}

pub fn is_refusal(answer: Answer) -> bool
    ensures { result ≡ is_refusal answer }
{
    matches!(answer, Answer::Refused(_))
}

// Whether a measurement was started.
fn starts(answer: Answer) -> bool
    ensures { result ≡ Answer·starts answer }
{
    match answer {
        Answer::Accepted(flight, temperature) => flight || temperature,
        _ => false,
    }
}

// Moments count from a transaction that starts a measurement.
pub fn moment_after(answer: Answer, moment: u64) -> u64
    ensures { result ≡ pick (Answer·starts answer) 0 moment }
{
    if starts(answer) { 0 } else { moment }
}
