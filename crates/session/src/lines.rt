// One line, from its bytes to what it leaves.
ghost use Rattle.std.specs.Prelude.{◌≡◌};
ghost use Rattle.line.specs.Line.{Bounded, line_reading};
ghost use Rattle.session.specs.Line.{line_done, line_begun, line_ended, content_answered, line_answered};
ghost use Rattle.item_checks.specs.Close.{expected_from};

use checker::close::{close, shorten};
use checker::open::open;
use device::Model;
use item_state::counts::LEFT;
use line::Content;

pub fn answer_line(
    m: Model,
    text: &[u8],
    numbers: &mut [u32],
    counts: &mut [usize; 22],
    mem: &mut [u8],
    kept: &mut [i32],
    probes: &mut [u32],
    names: &mut [u8],
    answers: &mut [u8],
) -> Model
    ensures { (numbers.new ≡ (line_reading numbers.old text.now).numbers) × (record { state = record { model = result; flash = mem.new; differences = kept.new; probes = probes.new; log = record { counts = counts.exit.now; answers = answers.new } }; names = names.new } ≡ line_answered text.now numbers.old record { state = record { model = m; flash = mem.old; differences = kept.old; probes = probes.old; log = record { counts = counts.entry.now; answers = answers.old } }; names = names.old }) }
{
    let said = line_reader::read_line(text, numbers);
    let content = said.content;
    answer_content(
        m,
        content,
        said.expected,
        text,
        numbers,
        counts,
        mem,
        kept,
        probes,
        names,
        answers,
    )
}

fn answer_content(
    m: Model,
    content: Content,
    expected: usize,
    text: &[u8],
    numbers: &[u32],
    counts: &mut [usize; 22],
    mem: &mut [u8],
    kept: &mut [i32],
    probes: &mut [u32],
    names: &mut [u8],
    answers: &mut [u8],
) -> Model
    requires { Bounded content }
    ensures { record { state = record { model = result; flash = mem.new; differences = kept.new; probes = probes.new; log = record { counts = counts.exit.now; answers = answers.new } }; names = names.new } ≡ content_answered content (expected_from text.now expected) text.now numbers.now record { state = record { model = m; flash = mem.old; differences = kept.old; probes = probes.old; log = record { counts = counts.entry.now; answers = answers.old } }; names = names.old } }
{
    let left = begin(content, text, counts, names, answers);
    let model = answer_on_model(m, left, numbers, counts, mem, kept, probes, answers);
    end(text, expected, counts, names, answers);
    model
}

// Before a line's answer, unless the line is under way.
fn begin(
    content: Content,
    text: &[u8],
    counts: &mut [usize; 22],
    names: &mut [u8],
    answers: &mut [u8],
) -> Content
    ensures { (Bounded content → Bounded result) × (record { content = result; names = names.new; log = record { counts = counts.exit.now; answers = answers.new } } ≡ line_begun content text.now names.old record { counts = counts.entry.now; answers = answers.old }) }
{
    if counts[LEFT] != 0 {
        return content;
    }
    open(content, text, counts, names, answers)
}

// Behind it: a check keeps it short, and it is closed once the line is no longer under way.
fn end(text: &[u8], expected: usize, counts: &mut [usize; 22], names: &[u8], answers: &mut [u8])
    ensures { record { counts = counts.exit.now; answers = answers.new } ≡ line_ended (expected_from text.now expected) names.now record { counts = counts.entry.now; answers = answers.old } }
{
    shorten(counts, answers);
    if counts[LEFT] != 0 {
        return;
    }
    close(text, expected, counts, names, answers);
}

// Each step answers the lines that are its own, and passes over the others.
fn answer_on_model(
    m: Model,
    content: Content,
    numbers: &[u32],
    counts: &mut [usize; 22],
    mem: &mut [u8],
    kept: &mut [i32],
    probes: &mut [u32],
    answers: &mut [u8],
) -> Model
    requires { Bounded content }
    ensures { record { model = result; flash = mem.new; differences = kept.new; probes = probes.new; log = record { counts = counts.exit.now; answers = answers.new } } ≡ line_done content numbers.now record { model = m; flash = mem.old; differences = kept.old; probes = probes.old; log = record { counts = counts.entry.now; answers = answers.old } } }
{
    let model = item_calls::answer_call(m, content, numbers, counts, mem, answers);
    item_questions::answer_question(model, content, numbers, counts, answers);
    item_analysis::answer_analysis(model, content, numbers, counts, kept, probes, answers);
    model
}
