// What a call of the library returns: a number for its answer, the answer's words in a lent buffer, the model in its bytes.
#![tactic(auto)]

ghost use Rattle.std.specs.Prelude.{◌≡◌, set};
ghost use Rattle.layout.specs.Code.{Settled, code_of, filled, kept, model_after, words_of};

use device::{Answer, Model, Reply, Report, StretchReport};
use snapshot::store;

// What is returned where there is no refusal; and of a delivery that failed.
pub const ACCEPTED: u32 = 0xffffffff;

pub const FAILED: u32 = 0xfffffffe;

// A word, or a size, at a place of the buffer, where it has one.
pub fn put<T: Copy>(words: &mut [T], i: usize, w: T)
    ensures { words.new ≡ set words.old i w }
{
    if i < words.len() {
        words[i] = w;
    }
}

// Four words at its first places.
pub fn put_four(words: &mut [u32], a: u32, b: u32, c: u32, d: u32)
    ensures { words.new ≡ set (set (set (set words.old 0 a) 1 b) 2 c) 3 d }
{
    put(words, 0, a);
    put(words, 1, b);
    put(words, 2, c);
    put(words, 3, d);
}

// The model in its bytes, where they are as many as it has.
pub fn keep(m: Model, bytes: &mut [u8])
    ensures { bytes.new ≡ kept m bytes.old }
{
    if bytes.len() == 233 {
        store(m, bytes);
    }
}

fn put_ticked(f: Report, t: Report, words: &mut [u32])
    ensures { words.new ≡ filled words.old (words_of (Answer.Ticked f t)) }
{
    put_four(
        words,
        f.started as u32,
        f.failed as u32,
        t.started as u32,
        t.failed as u32,
    );
}

fn put_stretched(f: StretchReport, t: StretchReport, words: &mut [u32])
    ensures { words.new ≡ filled words.old (words_of (Answer.Stretched f t)) }
{
    let f_started = f.started;
    let f_failed = f.failed;
    let t_started = t.started;
    let t_failed = t.failed;
    put_four(words, f_started.0, f_failed.0, t_started.0, t_failed.0);
}

fn put_accepted(f: bool, t: bool, words: &mut [u32])
    ensures { words.new ≡ filled words.old (words_of (Answer.Accepted f t)) }
{
    put(words, 0, f as u32);
    put(words, 1, t as u32);
}

// The words of an answer, and its number.
// Codes are numbers: the C interface.
pub fn put_answer(a: Answer, words: &mut [u32]) -> u32
    ensures { (result ≡ code_of a) × (words.new ≡ filled words.old (words_of a)) }
{
    match a {
        Answer::Refused(refusal) => refusal.number(),
        Answer::Accepted(f, t) => {
            put_accepted(f, t, words);
            ACCEPTED
        }
        Answer::Ticked(f, t) => {
            put_ticked(f, t, words);
            ACCEPTED
        }
        Answer::Stretched(f, t) => {
            put_stretched(f, t, words);
            ACCEPTED
        }
        Answer::Good => ACCEPTED,
        Answer::Failed => FAILED,
    }
}

// The model after an answer.
pub fn keep_after(r: Reply, bytes: &mut [u8])
    ensures { bytes.new ≡ model_after r.answer r.model bytes.old }
{
    let a = r.answer;
    let m = r.model;
    match a {
        Answer::Refused(_) => {}
        _ => keep(m, bytes),
    }
}

// The answer of a call, and the model after it.
pub fn settle(r: Reply, model: &mut [u8], words: &mut [u32]) -> u32
    ensures { Settled r model.old words.old result model.new words.new }
{
    keep_after(r, model);
    let a = r.answer;
    put_answer(a, words)
}
