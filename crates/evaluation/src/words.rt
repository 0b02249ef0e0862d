// Delivered lists as arrays: the six hits of a direction, the four ports.
ghost use Rattle.std.specs.Prelude.{◌≡◌, ◌<◌, ◌≤◌, ◌*◌, get_or};
ghost use Rattle.unit.specs.Choice.{pick};
ghost use Rattle.hit.specs.Words.{word_or_zero, six_words, four_words, six_total, average, filled, failed_pairs, failed_ports, no_quanta, plus, plus_each, port_pair, port_pairs};

use crate::limit::short_below;
use std::array::from_fn;
use unit::Quanta;

// FFFFh FFFFh, the pair of a register that failed or is open.
const FAILED: u32 = 0xffffffff;

fn word_or_zero(words: &[u32], i: usize) -> u32
    ensures { result ≡ word_or_zero words.now i }
{
    words.get(i).copied().unwrap_or(0)
}

// The hits of a direction; places past the list hold 0.
pub fn six_words(words: &[u32]) -> [u32; 6]
    ensures { result ≡ six_words words.now }
{
    from_fn(|i| word_or_zero(words, i))
}

// The ports T1 to T4.
pub fn four_words(words: &[u32]) -> [u32; 4]
    ensures { result ≡ four_words words.now }
{
    from_fn(|i| word_or_zero(words, i))
}

// The sum of the hits of a direction.
fn six_total(hits: [u32; 6]) -> Quanta
    ensures { result.0 ≡ six_total hits }
{
    let [a, b, c, d, e, f] = hits.map(u64::from);
    Quanta(a + b + c + d + e + f)
}

// The average of n hits, rounded down. It is below 2^31, as every word that is a hit.
pub fn average(hits: [u32; 6], n: u32) -> Quanta
    requires { six_total hits < n * 2147483648 }
    ensures { (result ≡ average hits n) × (result.0 < 2147483648) }
{
    let total = six_total(hits);
    Quanta(total.0 / u64::from(n))
}

pub fn choose_pairs(test: bool, yes: [u32; 7], no: [u32; 7]) -> [u32; 7]
    ensures { result ≡ pick test yes no }
{
    if test { yes } else { no }
}

// The seven result pairs of a direction: HIT 1 to 6, then AVG.
pub fn filled(hits: [u32; 6], mean: Quanta) -> [u32; 7]
    requires { mean.0 < 2147483648 }
    ensures { result ≡ filled hits mean }
{
    let avg = mean.0 as u32;
    [hits[0], hits[1], hits[2], hits[3], hits[4], hits[5], avg]
}

// The result pairs of a direction whose measurement failed: FFFFh FFFFh each.
pub fn failed_pairs() -> [u32; 7]
    ensures { result ≡ failed_pairs }
{
    [FAILED; 7]
}

// A port's pair: FFFFh FFFFh where the word is open, 0000h 0000h where it is short.
pub fn port_pair(limit: Quanta, word: u32) -> u32
    ensures { result ≡ port_pair limit word }
{
    let quanta = u64::from(word);
    let short = short_below();
    if limit.0 <= quanta {
        FAILED
    } else if quanta < short.0 {
        0
    } else {
        word
    }
}

pub fn port_pairs(limit: Quanta, w: [u32; 4]) -> [u32; 4]
    ensures { result ≡ port_pairs limit w }
{
    w.map(|word| port_pair(limit, word))
}

pub fn failed_ports() -> [u32; 4]
    ensures { result ≡ failed_ports }
{
    [FAILED; 4]
}

fn plus(sum: Quanta, word: u32) -> Quanta
    requires { sum.0 ≤ 1099511627776 }
    ensures { result ≡ plus sum word }
{
    Quanta(sum.0 + u64::from(word))
}

// The sums of the ports, each with its word more.
pub fn plus_each(sums: [Quanta; 4], w: [u32; 4]) -> [Quanta; 4]
    requires { ((get_or sums 0 no_quanta).0 ≤ 1099511627776) × ((get_or sums 1 no_quanta).0 ≤ 1099511627776) × ((get_or sums 2 no_quanta).0 ≤ 1099511627776) × ((get_or sums 3 no_quanta).0 ≤ 1099511627776) }
    ensures { result ≡ plus_each sums w }
{
    from_fn(|i| plus(sums[i], w[i]))
}
