// Registers' words held against those wanted.
ghost use Rattle.std.specs.Prelude.{[], map, ◌≡◌, ◌+◌, ◌≤◌, eqb, length};
ghost use Rattle.text.specs.Text.{text_where, words};
ghost use Rattle.text.specs.OwnPut.{Puts};
ghost use Rattle.item_line.specs.OwnBounds.{Fours};
ghost use Rattle.item_line.specs.Reading.{four_digits};
ghost use Rattle.item_answer.specs.Step.{expectations};
ghost use Rattle.item_answer.specs.Words.{differences};
ghost use Rattle.item_chip_code.specs.OwnCompared.{Judges, Comparing, Compares};

use crate::Compared;
use item_answer::{Carried, Counts, Stepped};
use item_words_code::expectation::{four_digits, put_difference, wants_any, word_fits};
use text_code::{next_word, part_of};

// A whole line: the keyword, the address, and whether each word is as wanted.
pub fn compare(
    carried: Carried,
    calls: u64,
    keyword: &[u8],
    a: u32,
    has: &[u32],
    wanted: &[u8],
    buf: &mut [u8],
    at: usize,
) -> Stepped
    requires { (length has.now ≡ length (words wanted.now)) × Fours (map four_digits (words wanted.now)) × (a + length has.now ≤ 256) }
    ensures { Compares keyword.now calls a has.now (map four_digits (words wanted.now)) carried buf.old at result buf.new }
{
    let k = numeral::put_text(buf, at, keyword);
    let h = numeral::put_hex(buf, k, 2, a);
    let c = compare_each(buf, h, a, has, wanted);
    let v = put_where_none(buf, c.end, c.differ, b" ok");
    let end = numeral::put_text(buf, v, b"\n");
    let adds = Counts {
        calls,
        refused: 0,
        unannounced: 0,
        bad: 0,
        expectations: c.expectations,
        differ: c.differ,
    };
    Stepped { carried, end, adds }
}

// Each word, with the word of the text that is wanted.
fn compare_each(buf: &mut [u8], at: usize, a: u32, has: &[u32], wanted: &[u8]) -> Compared
    requires { (length has.now ≡ length (words wanted.now)) × Fours (map four_digits (words wanted.now)) × (a + length has.now ≤ 256) }
    ensures { Comparing buf.old at (differences a has.now (map four_digits (words wanted.now))) (expectations (map four_digits (words wanted.now))) buf.new result 0 [] [] }
{
    let mut c = Compared {
        end: at,
        expectations: 0,
        differ: 0,
    };
    let mut place = 0;
    for (i, value) in has.iter().enumerate() {
        let word = next_word(wanted, place);
        let digits = four_digits(part_of(wanted, word));
        c = judge(buf, c, a + i as u32, *value, &digits);
        place = word.end;
    }
    c
}

// One word, after those compared so far.
fn judge(buf: &mut [u8], c: Compared, address: u32, has: u32, wanted: &[u8]) -> Compared
    requires { (c.differ ≤ 256) × (c.expectations ≤ 256) }
    ensures { Judges c address has wanted.now buf.old result buf.new }
{
    let expectations = c.expectations + u64::from(!wants_any(wanted));
    if word_fits(wanted, has) {
        return Compared { expectations, ..c };
    }
    let head = put_where_none(buf, c.end, c.differ, b" differs");
    let end = put_difference(buf, head, address, has, wanted);
    Compared {
        end,
        expectations,
        differ: c.differ + 1,
    }
}

// A text, where no word has differed so far.
fn put_where_none(buf: &mut [u8], at: usize, differ: u64, text: &[u8]) -> usize
    ensures { Puts buf.old at (text_where (eqb differ 0) text.now) result buf.new }
{
    if differ == 0 {
        return numeral::put_text(buf, at, text);
    }
    at
}
