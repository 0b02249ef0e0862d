// The lines that count as calls, but `tick`, `at` and `read`.
ghost use Rattle.std.specs.Prelude.{◌≡◌, true, ℕ, List, ℤ, get_or};
ghost use Rattle.device.specs.Model.{is_sound};
ghost use Rattle.quietest.specs.Quietest.{quietest_place};
ghost use Rattle.item_line.specs.Line.{Line};
ghost use Rattle.item_line.specs.OwnRead.{as_call, as_expected};
ghost use Rattle.item_answer.specs.Answer.{frames_told, degrees_told, degrees_of, listing_told, quietest_told};
ghost use Rattle.item_answer.specs.Step.{line_step};
ghost use Rattle.item_answer.specs.OwnView.{item_of};
ghost use Rattle.item_answer_code.specs.OwnSteps.{Few, Steps};
ghost use Rattle.item_answer_code.specs.OwnFirst.{CallReady, CallFirst, CallFurther, FirstBeside};

use crate::close::close;
use item_answer::{Carried, Stepped};
use item_chip_code::{Answered, bus, flight, set, stretch, temperature};
use item_keep_code::analysis::{put_listed, put_listing, put_quietest};
use item_keep_code::frames::{put_frame_lines, put_frames};
use item_keep_code::table::put_degrees;
use item_line::CallRead;
use listing::Width;
use text::Span;
use text_code::first_items;

// The answer's first line, what is expected of it, and the lines after it.
pub fn call(
    c: Carried,
    said: CallRead,
    x: Option<Span>,
    text: &[u8],
    numbers: &[u32],
    flash: &mut [u8],
    recorded: &[i32],
    probes: &[u32],
    answers: &mut [u8],
    at: usize,
) -> Stepped
    requires { CallReady (as_call numbers.now said) c }
    ensures { (number : ℕ) → Steps (line_step number (Line.call (as_call numbers.now said) (as_expected text.now x)) (item_of c flash.old recorded.now probes.now)) answers.old at result flash.new recorded.now probes.now answers.new }
{
    let first = put_first(c, said, numbers, flash, recorded, probes, answers, at);
    let s = close(1, first, text, x, answers, at);
    let end = put_further(c, said, recorded, answers, s.end);
    let carried = s.carried;
    let adds = s.adds;
    Stepped { carried, end, adds }
}

// The first line of the answer.
fn put_first(
    c: Carried,
    said: CallRead,
    numbers: &[u32],
    flash: &mut [u8],
    recorded: &[i32],
    probes: &[u32],
    answers: &mut [u8],
    at: usize,
) -> Answered
    requires { CallReady (as_call numbers.now said) c }
    ensures { CallFirst (as_call numbers.now said) c flash.old recorded.now probes.now answers.old at result flash.new answers.new }
{
    match said {
        CallRead::Bus(output, n) => bus(c, output, n, numbers, flash, answers, at),
        CallRead::Set(a, n) => set(c, a, n, numbers, flash, answers, at),
        CallRead::Tick(_) => unanswered(c, at),
        CallRead::At(_) => unanswered(c, at),
        CallRead::Stretch(n) => stretch(c, n, answers, at),
        CallRead::Flight(up, down) => flight(c, up, down, numbers, answers, at),
        CallRead::Temperature(n) => temperature(c, n, numbers, answers, at),
        CallRead::Frames => frames(c, answers, at),
        CallRead::Degrees => degrees(c, numbers, probes, answers, at),
        CallRead::Listing(width, first) => listing(c, width, first, recorded, answers, at),
        CallRead::Quietest(width) => quietest(c, width, recorded, answers, at),
    }
}

// The lines after the first.
fn put_further(c: Carried, said: CallRead, recorded: &[i32], answers: &mut [u8], at: usize) -> usize
    requires { is_sound c.model ≡ true }
    ensures { CallFurther (λ ns. as_call ns said) c recorded.now answers.old at result answers.new }
{
    match said {
        CallRead::Frames => {
            let m = c.model;
            put_frame_lines(answers, at, m)
        }
        CallRead::Listing(width, first) => {
            let kept = first_items(recorded, c.recorded);
            put_listed(answers, at, kept, width, first)
        }
        _ => at,
    }
}

// Lines that are answered elsewhere.
fn unanswered(c: Carried, at: usize) -> Answered {
    Answered {
        carried: c,
        end: at,
        refused: false,
    }
}

fn frames(c: Carried, answers: &mut [u8], at: usize) -> Answered
    requires { (is_sound c.model ≡ true) × Few c }
    ensures { (ds : List ℤ) (es : List ℕ) → FirstBeside frames_told c ds es answers.old at result answers.new }
{
    let m = c.model;
    let first = put_frames(answers, at, m);
    Answered {
        carried: c,
        end: first.end,
        refused: first.refused,
    }
}

fn degrees(c: Carried, numbers: &[u32], probes: &[u32], answers: &mut [u8], at: usize) -> Answered
    requires { Few c }
    ensures { (ds : List ℤ) → FirstBeside (λ i. degrees_told (degrees_of i.probes (get_or numbers.now 0 0) (get_or numbers.now 1 0)) i) c ds probes.now answers.old at result answers.new }
{
    let table = first_items(probes, c.probes);
    let first = put_degrees(
        answers,
        at,
        table,
        number_at(numbers, 0),
        number_at(numbers, 1),
    );
    Answered {
        carried: c,
        end: first.end,
        refused: first.refused,
    }
}

fn listing(
    c: Carried,
    width: Width,
    capture: u32,
    recorded: &[i32],
    answers: &mut [u8],
    at: usize,
) -> Answered
    requires { Few c }
    ensures { (es : List ℕ) → FirstBeside (listing_told width capture) c recorded.now es answers.old at result answers.new }
{
    let kept = first_items(recorded, c.recorded);
    let first = put_listing(answers, at, kept, width, capture);
    Answered {
        carried: c,
        end: first.end,
        refused: first.refused,
    }
}

fn quietest(c: Carried, width: u32, recorded: &[i32], answers: &mut [u8], at: usize) -> Answered
    requires { Few c }
    ensures { (es : List ℕ) → FirstBeside (λ i. quietest_told width (quietest_place i.recorded width) i) c recorded.now es answers.old at result answers.new }
{
    let kept = first_items(recorded, c.recorded);
    let first = put_quietest(answers, at, kept, width);
    Answered {
        carried: c,
        end: first.end,
        refused: first.refused,
    }
}

// A number of the line; 0 where it has none there.
fn number_at(numbers: &[u32], i: usize) -> u32
    ensures { result ≡ get_or numbers.now i 0 }
{
    numbers.get(i).copied().unwrap_or(0)
}
