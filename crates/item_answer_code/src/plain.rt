// Lines that are no calls and ask for nothing.
ghost use Rattle.std.specs.Prelude.{◌≡◌, List, [], length, ℕ};
ghost use Rattle.text.specs.Text.{words};
ghost use Rattle.text.specs.OwnPart.{part};
ghost use Rattle.item_line.specs.OwnRead.{as_fault};
ghost use Rattle.item_answer.specs.Step.{uncounted, bad_step};
ghost use Rattle.item_answer_code.specs.OwnSteps.{Few, StepsBeside, Starts};

use item_answer::{Carried, Stepped};
use item_keep_code::bad::put_bad;
use item_keep_code::counts::{bad_counts, no_counts};
use item_keep_code::item::{fresh_item, put_item};
use item_line::FaultRead;
use text::Span;

// A line that is passed over.
pub fn pass(c: Carried, at: usize) -> Stepped
    requires { Few c }
    ensures { (l : List ℕ) → StepsBeside (uncounted []) c l at result l }
{
    Stepped {
        carried: c,
        end: at,
        adds: no_counts(),
    }
}

// A line that is no call.
pub fn bad(
    number: u64,
    text: &[u8],
    fault: FaultRead,
    c: Carried,
    answers: &mut [u8],
    at: usize,
) -> Stepped
    requires { Few c }
    ensures { StepsBeside (bad_step number (as_fault text.now fault)) c answers.old at result answers.new }
{
    let end = put_bad(answers, at, number, text, fault);
    Stepped {
        carried: c,
        end,
        adds: bad_counts(),
    }
}

// The line `item`.
pub fn item(text: &[u8], name: Span, flash: &mut [u8], answers: &mut [u8], at: usize) -> Stepped
    requires { length flash.old ≡ 8192 }
    ensures { Starts (words (part text.now name)) answers.old at result flash.new answers.new }
{
    let carried = fresh_item(flash);
    let end = put_item(answers, at, text, name);
    Stepped {
        carried,
        end,
        adds: no_counts(),
    }
}
