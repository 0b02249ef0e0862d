// Before a line's answer: its number, its head in a check, and the name of an item.
ghost use Rattle.std.specs.Prelude.{◌≡◌};
ghost use Rattle.line.specs.Line.{Bounded};
ghost use Rattle.item_checks.specs.Open.{line_counted, headed, begun, named, opened};

use crate::close::{NAME_PLACE, trouble};
use crate::fault::answer_fault;
use item_state::counts::{
    BAD, BODY, CHECK, LINES, NAME, OLD_BAD, OLD_REFUSED, OLD_TROUBLE, PATH, REFUSED, START, USED,
    more,
};
use item_state::output::first_bytes;
use line::Content;

// Another line begins. Faults and the names of items are answered here; what is left is handed back.
pub fn open(
    content: Content,
    text: &[u8],
    counts: &mut [usize; 22],
    names: &mut [u8],
    answers: &mut [u8],
) -> Content
    ensures { (Bounded content → Bounded result) × (record { content = result; names = names.new; log = record { counts = counts.exit.now; answers = answers.new } } ≡ opened content text.now names.old record { counts = counts.entry.now; answers = answers.old }) }
{
    begin_line(counts, names, answers);
    let left = answer_fault(content, counts, answers);
    put_item(left, text, counts, names, answers);
    left
}

fn begin_line(counts: &mut [usize; 22], names: &[u8], answers: &mut [u8])
    ensures { record { counts = counts.exit.now; answers = answers.new } ≡ begun names.now record { counts = counts.entry.now; answers = answers.old } }
{
    count_line(counts);
    put_head(counts, names, answers);
    counts[BODY] = counts[USED];
}

fn count_line(counts: &mut [usize; 22])
    ensures { counts.new ≡ line_counted counts.old }
{
    let used = counts[USED];
    let refused = counts[REFUSED];
    let bad = counts[BAD];
    counts[LINES] = more(counts[LINES], 1);
    counts[START] = used;
    counts[OLD_REFUSED] = refused;
    counts[OLD_BAD] = bad;
}

// `FILE:LINE: `, in a check.
fn put_head(counts: &mut [usize; 22], names: &[u8], answers: &mut [u8])
    ensures { record { counts = counts.exit.now; answers = answers.new } ≡ headed names.now record { counts = counts.entry.now; answers = answers.old } }
{
    if counts[CHECK] == 0 {
        return;
    }
    counts[OLD_TROUBLE] = trouble(counts);
    let file = first_bytes(names, counts[PATH]);
    let number = counts[LINES] as u64;
    counts[USED] = phrase::heads::put_place(answers, counts[USED], file, number);
}

// The line `item` is answered with its words, which are the item's name.
fn put_item(
    content: Content,
    text: &[u8],
    counts: &mut [usize; 22],
    names: &mut [u8],
    answers: &mut [u8],
)
    ensures { record { names = names.exit.now; log = record { counts = counts.exit.now; answers = answers.new } } ≡ named content text.now names.entry.now record { counts = counts.entry.now; answers = answers.old } }
{
    match content {
        Content::Item => {
            counts[NAME] = line_reader::put_words(names, NAME_PLACE, text);
            let end = line_reader::put_words(answers, counts[USED], text);
            counts[USED] = phrase::heads::put_end(answers, end);
        }
        _ => {}
    }
}
