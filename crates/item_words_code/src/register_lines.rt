// Registers in lines of eight.
ghost use Rattle.std.specs.Prelude.{map, ◌≤◌};
ghost use Rattle.text.specs.Text.{ended_each, spaced_each};
ghost use Rattle.text.specs.OwnPut.{Puts};
ghost use Rattle.item_page.specs.Row.{word};
ghost use Rattle.item_answer.specs.Words.{registers, register_line, register_lines};

use device::Model;
use registers::read::register_word;

// The first address, and the eight words from it on.
pub fn put_register_line(buf: &mut [u8], at: usize, m: Model, a: u32) -> usize
    requires { (176 ≤ a) × (a ≤ 248) }
    ensures { Puts buf.old at (register_line m a) result buf.new }
{
    let next = numeral::put_hex(buf, at, 2, a);
    put_eight(buf, next, m, a)
}

fn put_eight(buf: &mut [u8], at: usize, m: Model, a: u32) -> usize
    requires { (176 ≤ a) × (a ≤ 248) }
    ensures { Puts buf.old at (spaced_each (map word (registers m a 8))) result buf.new }
{
    let mut place = at;
    for address in a..a + 8 {
        let blank = numeral::put_text(buf, place, b" ");
        place = numeral::put_hex(buf, blank, 4, register_word(m, address));
    }
    place
}

// The nine lines after the first.
pub fn put_further_lines(buf: &mut [u8], at: usize, m: Model) -> usize
    ensures { Puts buf.old at (ended_each (register_lines m 0xB8 9)) result buf.new }
{
    let mut place = at;
    for i in 0..9 {
        let end = put_register_line(buf, place, m, 0xb8 + 8 * i);
        place = numeral::put_text(buf, end, b"\n");
    }
    place
}
