// Words that are put into a buffer.
ghost use Rattle.text.specs.Text.{words, spaced};
ghost use Rattle.text.specs.OwnPut.{Puts};

use crate::words::each_word;

// The words of a text, parted by one blank.
pub fn put_spaced(buf: &mut [u8], at: usize, s: &[u8]) -> usize
    ensures { Puts buf.old at (spaced (words s.now)) result buf.new }
{
    let mut others = each_word(s);
    let Some(first) = others.next() else {
        return at;
    };
    let mut place = numeral::put_text(buf, at, first);
    for word in others {
        place = numeral::put_text(buf, place, b" ");
        place = numeral::put_text(buf, place, word);
    }
    place
}
