// The lines of an input that is read in pieces: where a line ends, and what of a line is held until the rest of it is read.
#![tactic(auto)]

ghost use Rattle.std.specs.Prelude.{◌≡◌, ◌+◌, ◌-◌, ◌≤◌, ◌<◌, min, length, take, drop};
ghost use Rattle.line_buffer.specs.Lines.{has_line, line_end};

// As much of a line as is held. A line with more bytes is too long, whatever they are.
pub const HELD: usize = 1002;

// Whether a line ends in these bytes.
pub fn has_line(bytes: &[u8]) -> bool
    ensures { result ≡ has_line bytes.now }
{
    line_end(bytes, 0) < bytes.len()
}

// The place of the first line feed from `at` on, or the end. Eight places are looked at in a turn.
pub fn line_end(bytes: &[u8], at: usize) -> usize
    requires { at ≤ length bytes.now }
    ensures { (result ≡ line_end at bytes.now) × (at ≤ result) × (result ≤ length bytes.now) }
{
    // Kept as a while: a turn takes eight places, and what is left at the end is fewer.
    let mut i = at;
    while 8 <= bytes.len() - i {
        let end = end_in_eight(bytes, i);
        if end < i + 8 {
            return end;
        }
        i += 8;
    }
    end_from(bytes, i)
}

fn end_in_eight(bytes: &[u8], i: usize) -> usize
    requires { i + 8 ≤ length bytes.now }
    ensures { (i ≤ result) × (result ≤ i + 8) × (result < i + 8 → result ≡ line_end i bytes.now) × (i + 8 ≤ result → line_end i bytes.now ≡ line_end (i + 8) bytes.now) }
{
    for k in 0..8 {
        if bytes[i + k] == b'\n' {
            return i + k;
        }
    }
    i + 8
}

fn end_from(bytes: &[u8], at: usize) -> usize
    requires { at ≤ length bytes.now }
    ensures { (result ≡ line_end at bytes.now) × (at ≤ result) × (result ≤ length bytes.now) }
{
    for i in at..bytes.len() {
        if bytes[i] == b'\n' {
            return i;
        }
    }
    bytes.len()
}

// Brings the bytes from a place to before another to the front, as many as are held of a line, and answers how many.
pub fn hold(bytes: &mut [u8], from: usize, end: usize) -> usize
    ensures { (result ≡ min (min end (length bytes.old) - from) 1002) × (take result bytes.new ≡ take result (drop from bytes.old)) }
{
    let n = end.min(bytes.len()).saturating_sub(from).min(HELD);
    if 0 < n {
        bytes.copy_within(from..from + n, 0);
    }
    n
}
