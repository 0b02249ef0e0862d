// Hexadecimal numbers that are read where they stand, each byte looked at once.
ghost use Rattle.std.specs.Prelude.{◌≡◌, true, ◌≤◌, ◌<◌, length, get_or, IfSome};
ghost use Rattle.text.specs.Text.{is_blank};
ghost use Rattle.item_line_code.specs.OwnDigits.{DigitsAt, WholeAt, PairAt, Passed};
ghost use Rattle.item_line_code.specs.declared.Kind.TheVariants.{Hex};

use crate::{Digits, Form, Kind, Reached};
use text_code::{is_blank, skip_blanks};

// Stores the numbers from the place `at` on, after n numbers, up to a word that is none of the form.
pub(crate) fn clean_numbers(
    s: &[u8],
    at: usize,
    form: Form,
    n: usize,
    numbers: &mut [u32],
) -> Reached
    requires { at ≤ length s.now }
    ensures { Passed form s.now at n numbers.old result.at result.count numbers.new }
{
    match form.kind {
        Kind::Hex => {
            if form.most == 2 && form.least == 2 {
                pairs(s, at, form, n, numbers)
            } else {
                words_of_digits(s, at, form, n, numbers)
            }
        }
        _ => Reached { at, count: n },
    }
}

fn words_of_digits(s: &[u8], at: usize, form: Form, n: usize, numbers: &mut [u32]) -> Reached
    requires { (at ≤ length s.now) × (form.kind ≡ Hex) }
    ensures { Passed form s.now at n numbers.old result.at result.count numbers.new }
{
    let mut i = at;
    let mut count = n;
    // Kept as a while: it goes from word to word, each as long as it is, and stops at the end of the lent numbers.
    while i < s.len() && count < numbers.len() {
        let start = skip_blanks(s, i);
        let digits = digits_at(s, start, form.most);
        if !is_whole(s, start, digits.end, form.least) {
            return Reached { at: i, count };
        }
        numbers[count] = digits.value;
        count += 1;
        i = digits.end;
    }
    Reached { at: i, count }
}

// The same where each number is two digits after one blank.
fn pairs(s: &[u8], at: usize, form: Form, n: usize, numbers: &mut [u32]) -> Reached
    requires { (at ≤ length s.now) × (form.kind ≡ Hex) × (form.most ≡ 2) × (form.least ≡ 2) }
    ensures { Passed form s.now at n numbers.old result.at result.count numbers.new }
{
    let mut i = at;
    let mut count = n;
    // Kept as a while: it goes on as long as a pair stands at the place, and stops at the end of the lent numbers.
    while let Some(v) = pair_at(s, i) {
        if numbers.len() <= count {
            return Reached { at: i, count };
        }
        numbers[count] = v;
        count += 1;
        i += 3;
    }
    Reached { at: i, count }
}

// The number of the two digits after the blank at i, which no third follows.
fn pair_at(s: &[u8], i: usize) -> Option<u32>
    requires { i ≤ length s.now }
    ensures { IfSome result (λ v. PairAt s.now i v) }
{
    if s.len() - i < 3 {
        return None;
    }
    let high = numeral::hex_digit(s[i + 1])?;
    let low = numeral::hex_digit(s[i + 2])?;
    if s[i] == b' ' && stops_at(s, i + 3) {
        Some(high * 16 + low)
    } else {
        None
    }
}

// The bytes from `start` to `end` are some, at least `least`, and no word goes on after them.
fn is_whole(s: &[u8], start: usize, end: usize, least: usize) -> bool
    ensures { result ≡ true → WholeAt s.now start end least }
{
    start < end && least <= end - start && stops_at(s, end)
}

// No word goes on at the place i.
fn stops_at(s: &[u8], i: usize) -> bool
    ensures { result ≡ true → i < length s.now → is_blank (get_or s.now i 0) ≡ true }
{
    s.len() <= i || is_blank(s[i])
}

// The digits from the place `start` on, `most` of them and eight at most.
fn digits_at(s: &[u8], start: usize, most: usize) -> Digits
    requires { start ≤ length s.now }
    ensures { DigitsAt s.now start result.end most result.value }
{
    let stop = start + most.min(8).min(s.len() - start);
    let mut value: u32 = 0;
    for i in start..stop {
        let Some(d) = numeral::hex_digit(s[i]) else {
            return Digits { end: i, value };
        };
        value = value * 16 + d;
    }
    Digits { end: stop, value }
}
