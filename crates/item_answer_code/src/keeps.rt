// The lines that add to what an item keeps beside its model.
ghost use Rattle.std.specs.Prelude.{◌≡◌, true, List, map, ℕ, ℤ, length, take};
ghost use Rattle.device.specs.Model.{is_sound};
ghost use Rattle.difference.specs.Difference.{signed_of};
ghost use Rattle.item_line.specs.Line.{Keep};
ghost use Rattle.item_line.specs.OwnRead.{as_keep, as_expected};
ghost use Rattle.item_answer.specs.Answer.{keep_result};
ghost use Rattle.item_answer.specs.Step.{result_step};
ghost use Rattle.item_answer.specs.OwnView.{item_of};
ghost use Rattle.item_answer_code.specs.OwnSteps.{Few, Steps};
ghost use Rattle.item_answer_code.specs.OwnFirst.{AddSteps};

use crate::close::close;
use crate::plain::bad;
use item_answer::{Carried, Stepped};
use item_chip_code::Answered;
use item_keep_code::differences::put_record;
use item_keep_code::table::put_probe;
use item_line::{FaultRead, KeepRead};
use text::Span;
use text_code::first_words;

// The lines `probe` and `record`.
pub fn keep(
    number: u64,
    c: Carried,
    said: KeepRead,
    x: Option<Span>,
    text: &[u8],
    numbers: &[u32],
    recorded: &mut [i32],
    probes: &mut [u32],
    answers: &mut [u8],
    at: usize,
) -> Stepped
    requires { (is_sound c.model ≡ true) × Few c × (length recorded.old ≡ 4096) × (length probes.old ≡ 1024) }
    ensures { (fs : List ℕ) → Steps (result_step number 0 (as_expected text.now x) (keep_result (as_keep numbers.now said) (item_of c fs recorded.old probes.old)) (item_of c fs recorded.old probes.old)) answers.old at result fs recorded.new probes.new answers.new }
{
    match said {
        KeepRead::Probe(n) => probe(number, c, n, x, text, numbers, probes, answers, at),
        KeepRead::Differences(n) => record(number, c, n, x, text, numbers, recorded, answers, at),
    }
}

// The first n numbers are entries.
fn probe(
    number: u64,
    c: Carried,
    n: usize,
    x: Option<Span>,
    text: &[u8],
    numbers: &[u32],
    probes: &mut [u32],
    answers: &mut [u8],
    at: usize,
) -> Stepped
    requires { Few c × (length probes.old ≡ 1024) }
    ensures { (fs : List ℕ) (ds : List ℤ) → Steps (result_step number 0 (as_expected text.now x) (keep_result (Keep.probe (take n numbers.now)) (item_of c fs ds probes.old)) (item_of c fs ds probes.old)) answers.old at result fs ds probes.new answers.new }
{
    let added = put_probe(answers, at, first_words(numbers, n), probes, c.probes);
    let model = c.model;
    // The lists that are lent have no more places.
    let count = added.count.min(1024);
    let carried = Carried {
        model,
        moment: c.moment,
        recorded: c.recorded,
        probes: count,
    };
    settle(number, carried, added.fits, added.end, x, text, answers, at)
}

// The first n numbers are differences.
fn record(
    number: u64,
    c: Carried,
    n: usize,
    x: Option<Span>,
    text: &[u8],
    numbers: &[u32],
    recorded: &mut [i32],
    answers: &mut [u8],
    at: usize,
) -> Stepped
    requires { (is_sound c.model ≡ true) × Few c × (length recorded.old ≡ 4096) }
    ensures { (fs es : List ℕ) → Steps (result_step number 0 (as_expected text.now x) (keep_result (Keep.differences (map signed_of (take n numbers.now))) (item_of c fs recorded.old es)) (item_of c fs recorded.old es)) answers.old at result fs recorded.new es answers.new }
{
    let model = c.model;
    let added = put_record(
        answers,
        at,
        model,
        first_words(numbers, n),
        recorded,
        c.recorded,
    );
    let count = added.count.min(4096);
    let carried = Carried {
        model,
        moment: c.moment,
        recorded: count,
        probes: c.probes,
    };
    settle(number, carried, added.fits, added.end, x, text, answers, at)
}

// What was added is told, or that there is no room.
fn settle(
    number: u64,
    c: Carried,
    fits: bool,
    end: usize,
    x: Option<Span>,
    text: &[u8],
    answers: &mut [u8],
    at: usize,
) -> Stepped
    requires { Few c }
    ensures { AddSteps number c fits end (as_expected text.now x) answers.old at result answers.new }
{
    if fits {
        let first = Answered {
            carried: c,
            end,
            refused: false,
        };
        return close(0, first, text, x, answers, at);
    }
    bad(number, text, FaultRead::NoRoom, c, answers, end)
}
