// What was read of a line, for its turn.
ghost use Rattle.std.specs.Prelude.{◌≡◌, List, ℕ};
ghost use Rattle.text.specs.Text.{Text};
ghost use Rattle.item_line.specs.Line.{Line};
ghost use Rattle.item_line.specs.OwnRead.{as_call, as_expected, as_line};
ghost use Rattle.item_replay.specs.Going.{expected_of};
ghost use Rattle.item_replay_code.specs.OwnLine.{OfSort, Sorts};

use crate::Sort;
use item_line::{CallRead, LineRead};
use text::Span;

// What a line expects.
pub fn expected_of(said: LineRead) -> Option<Span>
    ensures { (text : Text) (numbers : List ℕ) → as_expected text result ≡ expected_of (as_line text numbers said) }
{
    match said {
        LineRead::Silent => None,
        LineRead::Bad(_) => None,
        LineRead::Item(_) => None,
        LineRead::Show => None,
        LineRead::Expect(_, _) => None,
        LineRead::Read(_, _) => None,
        LineRead::Call(_, x) => x,
        LineRead::Ask(_, x) => x,
        LineRead::Keep(_, x) => x,
    }
}

// The sort of a line.
pub fn sort(said: LineRead) -> Sort
    ensures { Sorts said result }
{
    match said {
        LineRead::Silent => Sort::Other,
        LineRead::Bad(_) => Sort::Other,
        LineRead::Item(_) => Sort::Other,
        LineRead::Show => Sort::Show,
        LineRead::Expect(_, _) => Sort::Other,
        LineRead::Read(_, _) => Sort::Other,
        LineRead::Call(call, x) => sort_call(call, x),
        LineRead::Ask(_, _) => Sort::Other,
        LineRead::Keep(_, _) => Sort::Other,
    }
}

fn sort_call(call: CallRead, x: Option<Span>) -> Sort
    ensures { (text : Text) (numbers : List ℕ) → OfSort (Line.call (as_call numbers call) (as_expected text x)) text result }
{
    match call {
        CallRead::Bus(_, _) => Sort::Other,
        CallRead::Set(_, _) => Sort::Other,
        CallRead::Tick(n) => Sort::Tick(n, x),
        CallRead::At(t) => Sort::At(t, x),
        CallRead::Stretch(_) => Sort::Other,
        CallRead::Flight(_, _) => Sort::Other,
        CallRead::Temperature(_) => Sort::Other,
        CallRead::Frames => Sort::Other,
        CallRead::Degrees => Sort::Other,
        CallRead::Listing(_, _) => Sort::Other,
        CallRead::Quietest(_) => Sort::Other,
    }
}
