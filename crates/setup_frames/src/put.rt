// Frames put into a buffer of bytes, and their lengths into another.
ghost use Rattle.std.specs.Prelude.{◌≡◌, ◌+◌, ◌*◌, ◌≤◌, ◌∷◌, length};
ghost use Rattle.std.proofs.lemmas.List.Edits.{sets};
ghost use Rattle.setup_frames.specs.Frames.{bytes_of, frames, all_bytes, lengths_of, over};

use crate::run::{WORDS, run_length, starts};

// The opcode that writes 34h.
const FIRST: usize = 0x34;

#[derive(Clone, Copy)]
pub struct Counts {
    pub bytes: usize,
    pub frames: usize,
}

// n words from place i of the set-up on.
fn put_words(s: [u16; WORDS], i: usize, n: usize, bytes: &mut [u8], at: usize)
    requires { (i + n ≤ 16) × (at + 2 * n ≤ length bytes.old) }
    ensures { bytes.new ≡ sets bytes.old at (bytes_of s i n) }
{
    for k in 0..n {
        let place = at + 2 * k;
        bytes[place..place + 2].copy_from_slice(&s[i + k].to_be_bytes());
    }
}

fn put_frame(s: [u16; WORDS], i: usize, n: usize, bytes: &mut [u8], at: usize)
    requires { (i + n ≤ 16) × (at + 1 + 2 * n ≤ length bytes.old) }
    ensures { bytes.new ≡ sets bytes.old at ((0x34 + i) ∷ bytes_of s i n) }
{
    bytes[at] = (FIRST + i) as u8;
    put_words(s, i, n, bytes, at + 1);
}

// The frames of all runs.
pub fn put_frames(s: [u16; WORDS], bytes: &mut [u8], lengths: &mut [u32]) -> Counts
    requires { (33 ≤ length bytes.old) × (8 ≤ length lengths.old) }
    ensures { (result.bytes ≡ length (all_bytes (frames s))) × (result.frames ≡ length (frames s)) × (bytes.new ≡ over bytes.old (all_bytes (frames s))) × (lengths.new ≡ over lengths.old (lengths_of (frames s))) }
{
    let mut at = 0;
    let mut n = 0;
    for i in 0..WORDS {
        if starts(s, i) {
            let words = run_length(s, i);
            put_frame(s, i, words, bytes, at);
            lengths[n] = (1 + 2 * words) as u32;
            at += 1 + 2 * words;
            n += 1;
        }
    }
    Counts {
        bytes: at,
        frames: n,
    }
}
