// The bytes of a line, kept until it ends.
ghost use Rattle.std.specs.Prelude.{◌≡◌, ◌≤◌, length};
ghost use Rattle.item_replay_code.specs.OwnHeld.{Copied, Ends, Holds};

use crate::Held;

// How many bytes of a line are kept. A line with more is too long, whatever they are.
pub const HELD: usize = 1002;

// Takes the bytes from a place on, up to a line feed, to those that are kept.
pub fn hold_line(text: &[u8], from: usize, line: &mut [u8], begun: usize) -> Held
    requires { (from ≤ length text.now) × (length line.old ≡ 1002) × (begun ≤ 1002) }
    ensures { Holds text.now from line.old begun result line.new }
{
    let end = line_end(text, from);
    let n = copy(&text[from..end], line, begun);
    if end < text.len() {
        return Held {
            next: end + 1,
            begun: n,
            whole: true,
        };
    }
    Held {
        next: end,
        begun: n,
        whole: false,
    }
}

// The place of the first line feed from a place on, or the end.
fn line_end(text: &[u8], from: usize) -> usize
    requires { from ≤ length text.now }
    ensures { Ends text.now from result }
{
    let rest = &text[from..];
    from + rest.iter().position(|c| *c == b'\n').unwrap_or(rest.len())
}

// Puts bytes after those that are kept, as many as have room.
fn copy(bytes: &[u8], line: &mut [u8], begun: usize) -> usize
    requires { (length line.old ≡ 1002) × (begun ≤ 1002) }
    ensures { Copied bytes.now line.old begun result line.new }
{
    numeral::put_text(line, begun, text_code::first_bytes(bytes, HELD - begun))
}
