// Words that are compared.
ghost use Rattle.std.specs.Prelude.{◌≡◌, drop};
ghost use Rattle.text.specs.Text.{same as Text·same, fits as Text·fits, begin_with, words};

use crate::words::each_word;

// Whether two texts are the same.
pub fn same(a: &[u8], b: &[u8]) -> bool
    ensures { result ≡ Text·same a.now b.now }
{
    a == b
}

// Whether a word is as it is wanted: a small x meets any byte.
pub fn fits(wanted: &[u8], word: &[u8]) -> bool
    ensures { result ≡ Text·fits wanted.now word.now }
{
    if wanted.len() != word.len() {
        return false;
    }
    for (w, c) in wanted.iter().zip(word) {
        if *w != b'x' && w != c {
            return false;
        }
    }
    true
}

// Whether the words after a line's first begin with those wanted.
pub fn begin_with(wanted: &[u8], line: &[u8]) -> bool
    ensures { result ≡ begin_with (words wanted.now) (drop 1 (words line.now)) }
{
    let mut others = each_word(line);
    let _ = others.next();
    for want in each_word(wanted) {
        let Some(word) = others.next() else {
            return false;
        };
        if !fits(want, word) {
            return false;
        }
    }
    true
}
