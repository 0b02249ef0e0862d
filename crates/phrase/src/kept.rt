// What stands beside the model: the probe table and the record.
ghost use Rattle.refusal.specs.Number.{number};
ghost use Rattle.wording.specs.Text.{PutEach};
ghost use Rattle.wording.specs.Wording.{probe, degrees, refused, difference, difference_texts, record_texts, quietest};

use crate::refusals::put_refusal;
use refusal::Refusal;

// `probe K`
pub fn put_probe(out: &mut [u8], at: usize, entries: u64) -> usize
    ensures { PutEach out.old at (probe entries) result out.new }
{
    let a = numeral::put_text(out, at, b"probe ");
    crate::end::put_count(out, a, entries, b"\n")
}

// `degrees D.DDD`
pub fn put_degrees(out: &mut [u8], at: usize, thousandths: u32) -> usize
    ensures { PutEach out.old at (degrees thousandths) result out.new }
{
    let a = numeral::put_text(out, at, b"degrees ");
    let b = numeral::put_thousandths(out, a, thousandths);
    numeral::put_text(out, b, b"\n")
}

// The word and a refusal.
pub fn put_refused(out: &mut [u8], at: usize, word: &[u8], refusal: Refusal) -> usize
    ensures { PutEach out.old at (refused word.now (number refusal)) result out.new }
{
    let a = numeral::put_text(out, at, word);
    let b = put_refusal(out, a, refusal);
    numeral::put_text(out, b, b"\n")
}

// `record D ..`
pub fn put_record(out: &mut [u8], at: usize, words: &[u32]) -> usize
    ensures { PutEach out.old at (record_texts words.now) result out.new }
{
    let a = numeral::put_text(out, at, b"record");
    let b = put_differences(out, a, words);
    numeral::put_text(out, b, b"\n")
}

fn put_differences(out: &mut [u8], at: usize, words: &[u32]) -> usize
    ensures { PutEach out.old at (difference_texts words.now) result out.new }
{
    let mut place = at;
    for word in words {
        place = put_difference(out, place, *word);
    }
    place
}

// ` D`, a two's complement word.
fn put_difference(out: &mut [u8], at: usize, word: u32) -> usize
    ensures { PutEach out.old at (difference word) result out.new }
{
    let a = numeral::put_text(out, at, b" ");
    numeral::put_signed(out, a, word)
}

// `quietest START SPREAD`
pub fn put_quietest(out: &mut [u8], at: usize, start: u64, spread: u64) -> usize
    ensures { PutEach out.old at (quietest start spread) result out.new }
{
    let a = numeral::put_text(out, at, b"quietest ");
    let b = crate::end::put_count(out, a, start, b" ");
    crate::end::put_count(out, b, spread, b"\n")
}
