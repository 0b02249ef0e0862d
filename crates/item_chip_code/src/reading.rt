// The lines `read` and `expect`.
ghost use Rattle.std.specs.Prelude.{true, map, ◌≡◌, ◌+◌, ◌*◌, ◌≤◌, ◌<◌, length};
ghost use Rattle.device.specs.Model.{is_sound};
ghost use Rattle.text.specs.Text.{words};
ghost use Rattle.text.specs.OwnPart.{part};
ghost use Rattle.item_line.specs.Line.{Line};
ghost use Rattle.item_line.specs.OwnBounds.{LineBound};
ghost use Rattle.item_line.specs.Reading.{four_digits};
ghost use Rattle.item_answer.specs.Words.{words_of, registers};
ghost use Rattle.item_answer.specs.Step.{line_step};
ghost use Rattle.item_chip_code.specs.OwnCompared.{Steps, StepsBeside, ReadsWords};

use crate::comparing::compare;
use crate::transactions::exchange;
use device::Model;
use item_answer::{Carried, Stepped};
use registers::read::register_word;
use text::Span;
use text_code::{count_words, first_bytes, part_of};

// A read in whole words, from the address a on; the words wanted are those of a part of the text.
pub fn read(
    c: Carried,
    a: u32,
    text: &[u8],
    span: Span,
    flash: &mut [u8],
    buf: &mut [u8],
    at: usize,
) -> Stepped
    requires { (is_sound c.model ≡ true) × LineBound (Line.read a (map four_digits (words (part text.now span)))) }
    ensures { Steps (line_step 0 (Line.read a (map four_digits (words (part text.now span))))) c flash.old buf.old at result flash.new buf.new }
{
    let wanted = part_of(text, span);
    let n = count_words(wanted);
    let mut words = [0u32; 80];
    let has = &mut words[..n];
    let carried = read_words(c, a, has, flash);
    compare(carried, 1, b"read ", a, has, wanted, buf, at)
}

// The registers' words from the address a on, with nothing cleared.
pub fn expect(c: Carried, a: u32, text: &[u8], span: Span, buf: &mut [u8], at: usize) -> Stepped
    requires { LineBound (Line.expect a (map four_digits (words (part text.now span)))) }
    ensures { StepsBeside (line_step 0 (Line.expect a (map four_digits (words (part text.now span))))) c buf.old at result buf.new }
{
    let wanted = part_of(text, span);
    let n = count_words(wanted);
    let mut words = [0u32; 80];
    let has = &mut words[..n];
    fill_registers(c.model, a, has);
    compare(c, 0, b"expect ", a, has, wanted, buf, at)
}

// A transaction that reads as many words as there is room for.
fn read_words(c: Carried, a: u32, words: &mut [u32], flash: &mut [u8]) -> Carried
    requires { (is_sound c.model ≡ true) × (a < 256) × (length words.old ≤ 80) }
    ensures { ReadsWords c a (length words.old) flash.old result words.new flash.new }
{
    let size = 2 * words.len();
    let mut bytes = [0u8; 200];
    bytes[0] = (a % 256) as u8;
    let frame = first_bytes(&bytes, size + 1);
    let mut buffer = [238u8; 200];
    let out = &mut buffer[..size];
    let e = exchange(c, frame, out, flash);
    fill_words(out, words);
    e.carried
}

fn fill_words(bytes: &[u8], words: &mut [u32])
    requires { length bytes.now ≡ 2 * length words.old }
    ensures { words.new ≡ words_of bytes.now }
{
    for (i, word) in words.iter_mut().enumerate() {
        *word = u32::from(u16::from_be_bytes([bytes[2 * i], bytes[2 * i + 1]]));
    }
}

fn fill_registers(m: Model, a: u32, words: &mut [u32])
    requires { (176 ≤ a) × (a + length words.old ≤ 256) }
    ensures { words.new ≡ registers m a (length words.old) }
{
    for (i, word) in words.iter_mut().enumerate() {
        *word = register_word(m, a + i as u32);
    }
}
