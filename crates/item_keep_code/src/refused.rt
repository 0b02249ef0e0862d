// Refusals of the lines that count as calls.
ghost use Rattle.std.specs.Prelude.{◌≡◌, true, ◌++◌};
ghost use Rattle.text.specs.OwnPut.{Puts};
ghost use Rattle.item_page.specs.Row.{refusal};
ghost use Rattle.refusal.specs.Number.{number};

use crate::Answered;
use item_words_code::refusals::put_refusal;
use refusal::Refusal;

// The line's first word with a blank, and the refusal.
pub fn put_refused(buf: &mut [u8], at: usize, word: &[u8], why: Refusal) -> Answered
    ensures { Puts buf.old at (word.now ++ refusal (number why)) result.end buf.new × (result.refused ≡ true) }
{
    let a = numeral::put_text(buf, at, word);
    let end = put_refusal(buf, a, why);
    Answered { end, refused: true }
}
