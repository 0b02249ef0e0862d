// One file.
ghost use Rattle.std.specs.Prelude.{◌+◌, ◌≤◌, true, false, ◌≡◌, length, take};
ghost use Rattle.file_replay.specs.Files.{not_read, headed, is_descriptor, Came};
ghost use Rattle.session.specs.Turns.{Replayed};

use crate::opened::{Opened, OpenedBy, is_input, open_named};
use crate::system::{System, put_argument};
use collection::Outcome;
use item_state::output::first_bytes;
use session::tell_unread;
use std::io;

// Standard input, without a heading.
pub fn replay_input<R: System>(rt: &R) {
    session::replay(rt, &mut rt.input(), b"-", false);
}

// The file that an argument names, without a heading.
pub fn replay_argument<R: System>(rt: &R, i: usize) {
    let mut path = [0u8; 4096];
    match put_argument(rt, i, &mut path) {
        Ok(length) => {
            let input = Opened::Input(rt.input());
            replay_file(rt, input, &path[..length], false, false);
        }
        Err(error) => tell_unread(rt, &path, &error),
    }
}

// The file of a name, `-` being the input.
pub fn replay_file<R: System>(
    rt: &R,
    input: OpenedBy<R>,
    path: &[u8],
    check: bool,
    heading: bool,
) -> Outcome
    requires { length path.now ≤ 4096 }
    ensures { Came path.now check result }
{
    if is_input(path) {
        return replay_opened(rt, Ok(input), path, check, heading);
    }
    replay_opened(rt, open_named(rt, path), path, check, heading)
}

// A file that can't be opened is told by name, with the system's words.
fn replay_opened<R: System>(
    rt: &R,
    opened: io::Result<OpenedBy<R>>,
    path: &[u8],
    check: bool,
    heading: bool,
) -> Outcome
    requires { length path.now ≤ 4096 }
    ensures { (is_descriptor opened ≡ false → result ≡ not_read) × (is_descriptor opened ≡ true → Replayed path.now check result) }
{
    match opened {
        Err(error) => {
            tell_unread(rt, path, &error);
            not_read()
        }
        Ok(mut file) => {
            write_heading(rt, path, heading);
            session::replay(rt, &mut file, path, check)
        }
    }
}

pub fn not_read() -> Outcome
    ensures { result ≡ not_read }
{
    Outcome {
        whole: false,
        unannounced: 0,
        bad: 0,
        expected: 0,
        differ: 0,
    }
}

fn write_heading(rt: &impl Print, path: &[u8], heading: bool)
    requires { length path.now ≤ 4096 }
{
    let mut out = [0u8; 4112];
    let end = put_heading(&mut out, path, heading);
    let _ = rt.write_all(first_bytes(&out, end));
}

// Puts the heading into the first places, where one is asked for.
fn put_heading(out: &mut [u8], path: &[u8], heading: bool) -> usize
    requires { length path.now + 7 ≤ length out.old }
    ensures { take result out.new ≡ headed heading path.now }
{
    if heading {
        return tally::put_heading(out, 0, path);
    }
    0
}
