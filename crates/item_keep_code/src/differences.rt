// The record of differences.
ghost use Rattle.std.specs.Prelude.{◌≡◌, true, ◌++◌, map, ◌+◌, ◌≤◌, length, take};
ghost use Rattle.device.specs.Model.{is_sound};
ghost use Rattle.device.specs.Registers.{register_word};
ghost use Rattle.difference.specs.Difference.{joined_word, signed_of};
ghost use Rattle.text.specs.Text.{spaced_each};
ghost use Rattle.text.specs.OwnPut.{Puts};
ghost use Rattle.numeral.specs.Ascii.{ascii};
ghost use Rattle.item_answer.specs.Words.{quanta};
ghost use Rattle.item_answer.specs.Answer.{added};
ghost use Rattle.item_keep_code.specs.OwnAdded.{RecordAdds};

use crate::Added;
use device::Model;

// How many differences a record has at most.
const MOST: usize = 4096;

// The line `record`: the differences of these words, or TOF_DIFF where there are none, after the first `used`; nothing where there is no room
// for all.
pub fn put_record(
    buf: &mut [u8],
    at: usize,
    m: Model,
    words: &[u32],
    kept: &mut [i32],
    used: usize,
) -> Added
    requires { (is_sound m ≡ true) × (used ≤ 4096) × (4096 ≤ length kept.old) }
    ensures { RecordAdds buf.old at (added (map signed_of words.now) m) kept.old used result kept.new buf.new }
{
    if words.is_empty() {
        return put_added(buf, at, &[tof_diff(m)], kept, used);
    }
    put_added(buf, at, words, kept, used)
}

// E2h and E3h.
fn tof_diff(m: Model) -> u32
    requires { is_sound m ≡ true }
    ensures { result ≡ joined_word (register_word m 0xE2) (register_word m 0xE3) }
{
    difference::joined(word(m, 0xe2), word(m, 0xe3))
}

fn word(m: Model, a: u32) -> u32
    requires { (is_sound m ≡ true) × (0xB0 ≤ a) × (a ≤ 0xFF) }
    ensures { result ≡ register_word m a }
{
    match question::peek(m, a) {
        Ok(w) => w,
        Err(_) => 0,
    }
}

fn put_added(buf: &mut [u8], at: usize, words: &[u32], kept: &mut [i32], used: usize) -> Added
    requires { (used ≤ 4096) × (4096 ≤ length kept.old) }
    ensures { RecordAdds buf.old at (map signed_of words.now) kept.old used result kept.new buf.new }
{
    if MOST - used < words.len() {
        return Added {
            fits: false,
            count: used,
            end: at,
        };
    }
    add(words, kept, used);
    let end = put_words(buf, at, words);
    Added {
        fits: true,
        count: used + words.len(),
        end,
    }
}

// The differences of some words more after the first `used`.
fn add(words: &[u32], kept: &mut [i32], used: usize)
    requires { used + length words.now ≤ length kept.old }
    ensures { take (used + length words.now) kept.new ≡ take used kept.old ++ map signed_of words.now }
{
    for (i, word) in words.iter().enumerate() {
        kept[used + i] = difference::signed(*word);
    }
}

// `record D ..`
fn put_words(buf: &mut [u8], at: usize, words: &[u32]) -> usize
    ensures { Puts buf.old at (ascii "record" ++ spaced_each (map quanta (map signed_of words.now))) result buf.new }
{
    let a = numeral::put_text(buf, at, b"record");
    put_each(buf, a, words)
}

// ` D` for each word.
fn put_each(buf: &mut [u8], at: usize, words: &[u32]) -> usize
    ensures { Puts buf.old at (spaced_each (map quanta (map signed_of words.now))) result buf.new }
{
    let mut place = at;
    for word in words {
        place = put_difference(buf, place, *word);
    }
    place
}

// ` D`, of a two's complement word.
fn put_difference(buf: &mut [u8], at: usize, word: u32) -> usize
    ensures { Puts buf.old at (ascii " " ++ quanta (signed_of word)) result buf.new }
{
    let a = numeral::put_text(buf, at, b" ");
    item_words_code::kept::put_quanta(buf, a, difference::signed(word))
}
