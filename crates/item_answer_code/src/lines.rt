// Every line but `tick`, `at` and `show`.
ghost use Rattle.item_line.specs.OwnRead.{as_line};
ghost use Rattle.item_answer.specs.Step.{line_step};
ghost use Rattle.item_answer.specs.OwnView.{item_of};
ghost use Rattle.item_answer_code.specs.OwnSteps.{Ready, Steps};

use crate::asks::ask;
use crate::calls::call;
use crate::keeps::keep;
use crate::plain::{bad, item, pass};
use item_answer::{Carried, Stepped};
use item_chip_code::{expect, read};
use item_line::LineRead;

// The line of this number, by what was read of its text and the numbers that this left.
pub fn answer_line(
    number: u64,
    text: &[u8],
    said: LineRead,
    numbers: &[u32],
    c: Carried,
    flash: &mut [u8],
    recorded: &mut [i32],
    probes: &mut [u32],
    answers: &mut [u8],
    at: usize,
) -> Stepped
    requires { Ready (as_line text.now numbers.now said) c flash.old recorded.old probes.old }
    ensures { Steps (line_step number (as_line text.now numbers.now said) (item_of c flash.old recorded.old probes.old)) answers.old at result flash.new recorded.new probes.new answers.new }
{
    match said {
        LineRead::Silent => pass(c, at),
        LineRead::Bad(fault) => bad(number, text, fault, c, answers, at),
        LineRead::Item(name) => item(text, name, flash, answers, at),
        LineRead::Show => pass(c, at),
        LineRead::Expect(a, wanted) => expect(c, a, text, wanted, answers, at),
        LineRead::Read(a, wanted) => read(c, a, text, wanted, flash, answers, at),
        LineRead::Call(kind, x) => call(
            c, kind, x, text, numbers, flash, recorded, probes, answers, at,
        ),
        LineRead::Ask(kind, x) => ask(c, kind, x, text, answers, at),
        LineRead::Keep(kind, x) => keep(
            number, c, kind, x, text, numbers, recorded, probes, answers, at,
        ),
    }
}
