// The words of a line as text.
ghost use Rattle.std.specs.Prelude.{◌≡◌, ◌≤◌, length, take, drop, [], ◌∷◌};
ghost use Rattle.numeral.specs.Place.{put_each, Put};
ghost use Rattle.line.specs.Words.{words};
ghost use Rattle.line.specs.Line.{content_length};
ghost use Rattle.line.specs.Spaced.{blanked, spaced};

use crate::calls::content_length;
use crate::words::next_word;

// Puts a line's words, parted by one blank, into the places from `at` on, one after the other. Where
// one has no room, neither have those after it, and the answer is numeral::NO_ROOM.
pub fn put_words(buf: &mut [u8], at: usize, line: &[u8]) -> usize
    ensures { record { next = result; bytes = buf.new } ≡ put_each buf.old at (spaced (words (take (content_length line.now) line.now))) }
{
    let n = content_length(line);
    put_spaced(buf, at, &line[..n])
}

fn put_spaced(buf: &mut [u8], at: usize, s: &[u8]) -> usize
    ensures { record { next = result; bytes = buf.new } ≡ put_each buf.old at (spaced (words s.now)) }
{
    let word = next_word(s, 0);
    let start = word.start;
    let end = word.end;
    if end <= start {
        return at;
    }
    let next = numeral::put_text(buf, at, &s[start..end]);
    put_blanked(buf, next, s, end)
}

// Puts a blank and a word, for each word from the place `from` on.
fn put_blanked(buf: &mut [u8], at: usize, s: &[u8], from: usize) -> usize
    requires { from ≤ length s.now }
    ensures { record { next = result; bytes = buf.new } ≡ put_each buf.old at (blanked (words (drop from s.now))) }
{
    // Kept as a while: a turn takes a word, and goes on behind it.
    let mut place = at;
    let mut i = from;
    while i < s.len() {
        let word = next_word(s, i);
        let start = word.start;
        let end = word.end;
        if end <= start {
            return place;
        }
        place = put_blank(buf, place);
        place = numeral::put_text(buf, place, &s[start..end]);
        i = end;
    }
    place
}

fn put_blank(buf: &mut [u8], at: usize) -> usize
    ensures { Put buf.old at (32 ∷ []) result buf.new }
{
    numeral::put_text(buf, at, b" ")
}
