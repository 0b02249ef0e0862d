// Lists of decimals.
ghost use Rattle.std.specs.Prelude.{◌≡◌, ◌≤◌, length, drop};
ghost use Rattle.line.specs.Words.{words};
ghost use Rattle.line.specs.Decimals.{decimal_of, listed};

use crate::numbers::store;
use crate::words::next_word;
use line::Tally;

// Reads the words from the place `at` on, and stores their numbers.
pub(crate) fn decimals(s: &[u8], at: usize, signed: bool, numbers: &mut [u32]) -> Tally
    requires { at ≤ length s.now }
    ensures { record { tally = result; numbers = numbers.new } ≡ listed signed 0 numbers.old (words (drop at s.now)) }
{
    // Kept as a while: a turn takes a word, and goes on behind it.
    let mut i = at;
    let mut count: usize = 0;
    while i < s.len() {
        let word = next_word(s, i);
        let start = word.start;
        let end = word.end;
        if end <= start {
            return Tally::All {
                count,
                slashes: 0,
                up: 0,
            };
        }
        match decimal_of(signed, &s[start..end]) {
            None => return Tally::Wrong,
            Some(v) => {
                store(numbers, count, v);
                count += 1;
            }
        }
        i = end;
    }
    Tally::All {
        count,
        slashes: 0,
        up: 0,
    }
}

// One decimal: with a sign its two's complement word.
fn decimal_of(signed: bool, word: &[u8]) -> Option<u32>
    ensures { result ≡ decimal_of signed word.now }
{
    if signed {
        numeral::read_signed(word)
    } else {
        numeral::read_decimal(word, 4294967295)
    }
}
