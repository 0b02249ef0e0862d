// The lines that ask.
ghost use Rattle.item_line.specs.OwnRead.{as_ask, as_expected};
ghost use Rattle.item_answer.specs.Answer.{ask_told};
ghost use Rattle.item_answer.specs.Step.{told_step};
ghost use Rattle.item_answer_code.specs.OwnSteps.{Few, StepsBeside};

use crate::close::close;
use item_answer::{Carried, Stepped};
use item_chip_code::put_further;
use item_line::AskRead;
use text::Span;

// The answer's first line, what is expected of it, and the lines after it.
pub fn ask(
    c: Carried,
    said: AskRead,
    x: Option<Span>,
    text: &[u8],
    answers: &mut [u8],
    at: usize,
) -> Stepped
    requires { Few c }
    ensures { StepsBeside (λ i. told_step 0 (as_expected text.now x) (ask_told (as_ask said) i)) c answers.old at result answers.new }
{
    let first = item_chip_code::ask(c, said, answers, at);
    let s = close(0, first, text, x, answers, at);
    let m = c.model;
    let end = put_further(answers, s.end, m, said);
    let carried = s.carried;
    let adds = s.adds;
    Stepped { carried, end, adds }
}
