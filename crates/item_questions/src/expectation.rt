// The lines `expect`.
ghost use Rattle.std.specs.Prelude.{◌≡◌};
ghost use Rattle.wording.specs.Text.{PutEach};
ghost use Rattle.item_questions.specs.Answers.{differing as Answers·differing, pairs, expectation, Expects};

use crate::register_lines::word;
use device::Model;
use item_state::counts::{DIFFER, EXPECTED, USED, more};

// The words that are expected from the address a on.
pub fn expect(m: Model, a: u32, words: &[u32], counts: &mut [usize; 22], answers: &mut [u8])
    ensures { Expects m a words.now counts.old answers.old counts.new answers.new }
{
    let n = differing(m, a, words);
    let used = put_expectation(answers, counts[USED], m, a, words, n);
    counts[USED] = used;
    counts[EXPECTED] = more(counts[EXPECTED], words.len());
    counts[DIFFER] = more(counts[DIFFER], n);
}

// How many words differ.
fn differing(m: Model, a: u32, words: &[u32]) -> usize
    ensures { result ≡ Answers·differing m a words.now }
{
    let mut n = 0;
    let mut address = a;
    for wanted in words {
        n = more(n, usize::from(word(m, address) != *wanted));
        address = address.wrapping_add(1);
    }
    n
}

fn put_expectation(out: &mut [u8], at: usize, m: Model, a: u32, words: &[u32], n: usize) -> usize
    requires { n ≡ Answers·differing m a words.now }
    ensures { PutEach out.old at (expectation m a words.now) result out.new }
{
    let start = phrase::expectation::put_head(out, at, a, n as u64);
    let end = put_differing(out, start, m, a, words);
    phrase::heads::put_end(out, end)
}

fn put_differing(out: &mut [u8], at: usize, m: Model, a: u32, words: &[u32]) -> usize
    ensures { PutEach out.old at (pairs m a words.now) result out.new }
{
    let mut place = at;
    let mut address = a;
    for wanted in words {
        place = phrase::expectation::put_pair(out, place, address, word(m, address), *wanted);
        address = address.wrapping_add(1);
    }
    place
}
