// What is wanted of a register's word, and where it differs.
ghost use Rattle.std.specs.Prelude.{◌≡◌, ◌-◌, ◌≤◌, ◌<◌, length};
ghost use Rattle.text.specs.Text.{is, fits};
ghost use Rattle.text.specs.OwnPut.{Puts};
ghost use Rattle.item_line.specs.Reading.{capital as Reading·capital, four_digits};
ghost use Rattle.item_page.specs.Row.{word};
ghost use Rattle.item_words_code.specs.OwnTexts.{backward, difference_text};

// A word of at most four digits in four.
pub fn four_digits(word: &[u8]) -> [u8; 4]
    requires { length word.now ≤ 4 }
    ensures { result ≡ four_digits word.now }
{
    let a = digit_backward(word, 4);
    let b = digit_backward(word, 3);
    let c = digit_backward(word, 2);
    let d = digit_backward(word, 1);
    [a, b, c, d]
}

// The digit that is the k-th from the last; 0 before the first.
fn digit_backward(word: &[u8], k: usize) -> u8
    requires { 0 < k }
    ensures { result ≡ backward word.now k }
{
    if word.len() < k {
        return 48;
    }
    capital(word[word.len() - k])
}

// A small x stays, and a digit is a capital.
fn capital(c: u8) -> u8
    ensures { result ≡ Reading·capital c }
{
    if c == 0x78 {
        return c;
    }
    // Any other byte is as 16, a G.
    let d = numeral::hex_digit(c).unwrap_or(16);
    if d < 10 {
        (48 + d) as u8
    } else {
        (55 + d) as u8
    }
}

// Whether any word is as wanted.
pub fn wants_any(wanted: &[u8]) -> bool
    ensures { result ≡ is "xxxx" wanted.now }
{
    text_code::same(wanted, b"xxxx")
}

// Whether a register's word is as wanted.
pub fn word_fits(wanted: &[u8], has: u32) -> bool
    ensures { result ≡ fits wanted.now (word has) }
{
    let mut digits = [0u8; 4];
    numeral::put_hex(&mut digits, 0, 4, has);
    text_code::fits(wanted, &digits)
}

// ` AT:HAS/WANTED`
pub fn put_difference(buf: &mut [u8], at: usize, address: u32, has: u32, wanted: &[u8]) -> usize
    ensures { Puts buf.old at (difference_text address has wanted.now) result buf.new }
{
    let a = numeral::put_text(buf, at, b" ");
    let b = numeral::put_hex(buf, a, 2, address);
    let c = numeral::put_text(buf, b, b":");
    let d = numeral::put_hex(buf, c, 4, has);
    let e = numeral::put_text(buf, d, b"/");
    numeral::put_text(buf, e, wanted)
}
