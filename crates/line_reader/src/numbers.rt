// The numbers of a line.
ghost use Rattle.std.specs.Prelude.{◌≡◌, true, cond, ◌+◌, ◌≤◌, ◌<◌, eqb, length, get_or, set, drop, IfSome};
ghost use Rattle.line.specs.Words.{is_blank, words};
ghost use Rattle.line.specs.Numbers.{is_slash, list_word, tallied};
ghost use Rattle.line.specs.Clean.{DigitsAt, WholeAt, PairAt, Passed};

use crate::words::{is_blank, next_word, same, skip_blanks};
use line::{Digits, Form, ListWord, Reached, Tally};

// Reads the words from the place `at` on, and stores their numbers.
pub(crate) fn tally(s: &[u8], at: usize, form: Form, numbers: &mut [u32]) -> Tally
    requires { at ≤ length s.now }
    ensures { record { tally = result; numbers = numbers.new } ≡ tallied form 0 0 0 numbers.old (words (drop at s.now)) }
{
    // Kept as a while: a turn takes a word, and goes on behind it.
    let mut i = at;
    let mut count: usize = 0;
    let mut slashes: usize = 0;
    let mut up: usize = 0;
    while i < s.len() {
        let clean = clean_numbers(s, i, form, count, numbers);
        let n = clean.count;
        let word = next_word(s, clean.at);
        let start = word.start;
        let end = word.end;
        if end <= start {
            return Tally::All {
                count: n,
                slashes,
                up,
            };
        }
        match list_word(&s[start..end], form, n) {
            ListWord::Wrong => return Tally::Wrong,
            ListWord::Slash => {
                up = first_slash(slashes, n, up);
                slashes += 1;
                count = n;
            }
            ListWord::Past => count = n + 1,
            ListWord::Word(v) => {
                store(numbers, n, v);
                count = n + 1;
            }
        }
        i = end;
    }
    Tally::All { count, slashes, up }
}

// Stores the numbers from the place `at` on, after n numbers, up to a word that is none of the form.
fn clean_numbers(s: &[u8], at: usize, form: Form, n: usize, numbers: &mut [u32]) -> Reached
    requires { at ≤ length s.now }
    ensures { Passed form s.now at n numbers.old result.at result.count numbers.new }
{
    if form.most == 2 && form.least == 2 {
        return pairs(s, at, form, n, numbers);
    }
    let room = form.looked.min(numbers.len());
    // Kept as a while: a turn takes a word, and goes on behind it.
    let mut i = at;
    let mut count = n;
    while i < s.len() {
        let start = skip_blanks(s, i);
        let digits = digits_at(s, start, form.most);
        let end = digits.end;
        let v = digits.value;
        if room <= count {
            return Reached { at: i, count };
        }
        if is_whole(s, start, end, form.least) {
            numbers[count] = v;
            count += 1;
            i = end;
        } else {
            return Reached { at: i, count };
        }
    }
    Reached { at: i, count }
}

// Stores numbers as `clean_numbers` does, where each is two digits behind one blank.
fn pairs(s: &[u8], at: usize, form: Form, n: usize, numbers: &mut [u32]) -> Reached
    requires { (at ≤ length s.now) × (form.most ≡ 2) × (form.least ≡ 2) }
    ensures { Passed form s.now at n numbers.old result.at result.count numbers.new }
{
    let room = form.looked.min(numbers.len());
    // Kept as a while: a turn takes three places, and goes no further than there are three.
    let mut i = at;
    let mut count = n;
    while s.len() - i >= 3 {
        let Some(v) = pair_at(s, i) else {
            return Reached { at: i, count };
        };
        if room <= count {
            return Reached { at: i, count };
        }
        numbers[count] = v;
        count += 1;
        i += 3;
    }
    Reached { at: i, count }
}

// The number of the two digits behind the blank at i, where no third follows.
fn pair_at(s: &[u8], i: usize) -> Option<u32>
    requires { i + 3 ≤ length s.now }
    ensures { IfSome result (λ v. PairAt s.now i v) }
{
    let high = numeral::hex_digit(s[i + 1])?;
    let low = numeral::hex_digit(s[i + 2])?;
    if s[i] == b' ' && stops_at(s, i + 3) {
        Some(high * 16 + low)
    } else {
        None
    }
}

// The bytes from `start` to `end` are some, at least `least`, and no word goes on after them.
fn is_whole(s: &[u8], start: usize, end: usize, least: usize) -> bool
    ensures { result ≡ true → WholeAt s.now start end least }
{
    start < end && least <= end - start && stops_at(s, end)
}

// No word goes on at the place i.
fn stops_at(s: &[u8], i: usize) -> bool
    ensures { result ≡ true → i < length s.now → is_blank (get_or s.now i 0) ≡ true }
{
    s.len() <= i || is_blank(s[i])
}

// The digits from the place `start` on, `most` of them and eight at most.
fn digits_at(s: &[u8], start: usize, most: usize) -> Digits
    requires { start ≤ length s.now }
    ensures { DigitsAt s.now start result.end most result.value }
{
    let stop = start + most.min(8).min(s.len() - start);
    let mut value: u32 = 0;
    for i in start..stop {
        let Some(d) = numeral::hex_digit(s[i]) else {
            return Digits { end: i, value };
        };
        value = value * 16 + d;
    }
    Digits { end: stop, value }
}

// What a word is after n numbers.
fn list_word(word: &[u8], form: Form, n: usize) -> ListWord
    ensures { result ≡ list_word form n word.now }
{
    if is_slash(form.slash, word) {
        return ListWord::Slash;
    }
    if form.looked <= n {
        return ListWord::Past;
    }
    match numeral::read_hex(word, form.least, form.most) {
        Some(v) => ListWord::Word(v),
        None => ListWord::Wrong,
    }
}

fn is_slash(slash: bool, word: &[u8]) -> bool
    ensures { result ≡ is_slash slash word.now }
{
    slash && same(word, b"/")
}

// The numbers before the first slash, at another slash.
fn first_slash(slashes: usize, count: usize, up: usize) -> usize
    ensures { result ≡ cond (eqb slashes 0) count up }
{
    if slashes == 0 { count } else { up }
}

// A number in its place, where there is one.
// An `if` and no `get_mut`: with that its proof does not close.
pub(crate) fn store(numbers: &mut [u32], i: usize, v: u32)
    ensures { numbers.new ≡ set numbers.old i v }
{
    if i < numbers.len() {
        numbers[i] = v;
    }
}
