// The input, line by line.
ghost use Rattle.std.specs.Prelude.{cond, ◌≡◌, ◌+◌, ◌≤◌, ◌<◌, eqb, length, get_or};
ghost use Rattle.line_buffer.specs.Lines.{line_end};
ghost use Rattle.session.specs.Feed.{has_room, fed};
ghost use Rattle.session.specs.Turns.{Replayed};

use crate::ends::{begin, end};
use crate::flush::flush;
use crate::input::{Input, InputState, go_on, is_going, is_whole};
use crate::lines::answer_line;
use crate::unread::Errors;
use collection::Outcome;
use device::Model;
use item_state::counts::{LEFT, USED};
use item_state::output::{FULL, bytes_from, first_bytes};
use line_buffer::line_end;
use std::io::Read;

// The model, and how many bytes are not answered yet.
#[derive(Clone, Copy)]
struct Progress {
    model: Model,
    left: usize,
}

// Replays what a file has, to its end. With `check`, only what needs a look is written, by the file's
// name and the line. Among the names the item's stands behind 4,096 places for the file's.
//
// Each turn answers lines of what was read, writes the answers, and reads on where no line is left. Nothing says that the input ends, so
// its turns are counted, to a number that no run comes to.
pub fn replay(
    rt: &(impl Print + Errors + Alloc),
    file: &mut impl Read,
    path: &[u8],
    check: bool,
) -> Outcome
    requires { length path.now ≤ 4096 }
    ensures { Replayed path.now check result }
{
    let mut numbers = [0u32; 512];
    let mut counts = [0usize; 22];
    let mut mem = [255u8; 8192];
    let mut kept = [0i32; 4096];
    let mut probes = [0u32; 1024];
    let mut names = [0u8; 5120];
    let mut answers = [0u8; 163840];
    let mut part = [0u8; 65536];
    let mut m = converter::fresh();
    let mut input = Input {
        from: 0,
        end: 0,
        state: InputState::More,
    };
    begin(path, check, &mut counts, &mut names);
    for _ in 0..u64::MAX {
        if !is_going(input) {
            break;
        }
        let progress = feed(
            m,
            bytes_from(first_bytes(&part, input.end), input.from),
            &mut numbers,
            &mut counts,
            &mut mem,
            &mut kept,
            &mut probes,
            &mut names,
            &mut answers,
        );
        m = progress.model;
        flush(rt, &answers, &mut counts);
        input = go_on(rt, file, path, &mut part, input, progress.left);
    }
    end(rt, is_whole(input), &mut counts, &mut answers)
}

// Answers lines that end in these bytes, all of them or those that the buffer has room for. The first line may be under way.
fn feed(
    m: Model,
    part: &[u8],
    numbers: &mut [u32],
    counts: &mut [usize; 22],
    mem: &mut [u8],
    kept: &mut [i32],
    probes: &mut [u32],
    names: &mut [u8],
    answers: &mut [u8],
) -> Progress
    ensures { (numbers.new ≡ (fed (length part.now) record { replay = record { state = record { model = m; flash = mem.old; differences = kept.old; probes = probes.old; log = record { counts = counts.entry.now; answers = answers.old } }; names = names.old }; numbers = numbers.old; left = part.now }).numbers) × (record { state = record { model = result.model; flash = mem.new; differences = kept.new; probes = probes.new; log = record { counts = counts.exit.now; answers = answers.new } }; names = names.new } ≡ (fed (length part.now) record { replay = record { state = record { model = m; flash = mem.old; differences = kept.old; probes = probes.old; log = record { counts = counts.entry.now; answers = answers.old } }; names = names.old }; numbers = numbers.old; left = part.now }).replay) × (result.left ≡ length (fed (length part.now) record { replay = record { state = record { model = m; flash = mem.old; differences = kept.old; probes = probes.old; log = record { counts = counts.entry.now; answers = answers.old } }; names = names.old }; numbers = numbers.old; left = part.now }).left) }
{
    let mut model = m;
    let mut i = 0;
    let mut end = line_end(part, 0);
    // Kept as a while: it goes from line to line, and to one that is under way again, so that no index is counted.
    while end < part.len() {
        model = answer_line(
            model,
            &part[i..end],
            numbers,
            counts,
            mem,
            kept,
            probes,
            names,
            answers,
        );
        i = place_after(counts, i, end);
        end = next_end(part, i, counts);
    }
    Progress {
        model,
        left: part.len() - i,
    }
}

// Where the next line starts; a line that is under way is the next once more.
fn place_after(counts: &[usize; 22], start: usize, end: usize) -> usize
    requires { end < 18446744073709551615 }
    ensures { (result ≡ cond (eqb (get_or counts.now 21 0) 0) (end + 1) start) × (start ≤ end → result ≤ end + 1) }
{
    if counts[LEFT] != 0 {
        return start;
    }
    end + 1
}

// The end of the line from a place on, or that of the bytes where answers are to be written first.
fn next_end(part: &[u8], at: usize, counts: &[usize; 22]) -> usize
    requires { at ≤ length part.now }
    ensures { (result ≡ cond (has_room counts.now) (line_end at part.now) (length part.now)) × (result ≤ length part.now) }
{
    if has_room(counts) {
        return line_end(part, at);
    }
    part.len()
}

// Whether another line can be answered before answers are written.
fn has_room(counts: &[usize; 22]) -> bool
    ensures { result ≡ has_room counts.now }
{
    if counts[LEFT] != 0 {
        return false;
    }
    counts[USED] <= FULL
}
