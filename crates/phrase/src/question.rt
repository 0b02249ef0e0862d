// `int`, `awaited` and `regs`.
ghost use Rattle.wording.specs.Text.{PutEach};
ghost use Rattle.wording.specs.Wording.{interrupt_texts, awaited_texts, blank_word, word_texts, row_texts};

// `int no` where 0 is told, else `int yes`.
pub fn put_interrupt(out: &mut [u8], at: usize, told: u32) -> usize
    ensures { PutEach out.old at (interrupt_texts told) result out.new }
{
    if told == 0 {
        numeral::put_text(out, at, b"int no\n")
    } else {
        numeral::put_text(out, at, b"int yes\n")
    }
}

// `awaited F T`
pub fn put_awaited(out: &mut [u8], at: usize, flight: u32, temperature: u32) -> usize
    ensures { PutEach out.old at (awaited_texts flight temperature) result out.new }
{
    let a = numeral::put_text(out, at, b"awaited ");
    let b = numeral::put_decimal(out, a, flight as u64);
    let c = numeral::put_text(out, b, b" ");
    let d = numeral::put_decimal(out, c, temperature as u64);
    numeral::put_text(out, d, b"\n")
}

// A line of `regs`: the first address, and the words from it on.
pub fn put_row(out: &mut [u8], at: usize, address: u32, words: &[u32]) -> usize
    ensures { PutEach out.old at (row_texts address words.now) result out.new }
{
    let a = numeral::put_hex(out, at, 2, address);
    let b = put_words(out, a, words);
    numeral::put_text(out, b, b"\n")
}

fn put_words(out: &mut [u8], at: usize, words: &[u32]) -> usize
    ensures { PutEach out.old at (word_texts words.now) result out.new }
{
    let mut place = at;
    for word in words {
        place = put_word(out, place, *word);
    }
    place
}

// A blank and four digits.
fn put_word(out: &mut [u8], at: usize, word: u32) -> usize
    ensures { PutEach out.old at (blank_word word) result out.new }
{
    let blank = numeral::put_text(out, at, b" ");
    numeral::put_hex(out, blank, 4, word)
}
