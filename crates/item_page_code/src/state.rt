// The status, and the rows after it.
ghost use Rattle.std.specs.Prelude.{◌≡◌, ◌∷◌, ◌%◌, ◌<◌, leb, eqb, length};
ghost use Rattle.unit.specs.Choice.{both, negate};
ghost use Rattle.numeral.specs.Ascii.{ascii};
ghost use Rattle.text.specs.Text.{spaced_each, ended_each};
ghost use Rattle.text.specs.OwnPut.{Puts};
ghost use Rattle.item_page.specs.Registers.{high_names, low_names, status_rows};
ghost use Rattle.item_page_code.specs.OwnWords.{last_rows};

use crate::run::put_either;
use item_page_form::put_form;

// With the heading.
pub fn put_status(buf: &mut [u8], at: usize, w: u32) -> usize
    ensures { Puts buf.old at (ended_each (ascii "STATUS REGISTERS" ∷ status_rows w)) result buf.new }
{
    let high = high_count(w);
    let low = low_count(w);
    let values = [w, high, low, high + low];
    let a = put_form(
        buf,
        at,
        b"STATUS REGISTERS\nFE     Interrupt Status         |$|      |",
        &values,
        0,
    );
    let b = put_high(buf, a, w);
    if takes_two(w) {
        let c = put_form(
            buf,
            b,
            b"?0 |\n                                          |",
            &values,
            1,
        );
        let d = put_low(buf, c, w);
        return put_form(buf, d, b"?0 |\n|", &values, 2);
    }
    let c = put_low(buf, b, w);
    put_form(buf, c, b"?0 none|\n|", &values, 3)
}

// Both bytes have bits.
fn takes_two(w: u32) -> bool
    ensures { result ≡ both (leb 256 w) (negate (eqb (w % 256) 0)) }
{
    256 <= w && w % 256 != 0
}

fn put_high(buf: &mut [u8], at: usize, w: u32) -> usize
    ensures { Puts buf.old at (spaced_each (high_names w)) result buf.new }
{
    let values = [
        w / 32768 % 2,
        w / 16384 % 2,
        w / 4096 % 2,
        w / 2048 % 2,
        w / 1024 % 2,
        w / 512 % 2,
        w / 256 % 2,
    ];
    put_form(
        buf,
        at,
        b"?1 TO|?1 AF|?1 TOF|?1 TE|?1 LDO|?1 TOF_EVTMG|?1 TEMP_EVTMG|",
        &values,
        0,
    )
}

fn put_low(buf: &mut [u8], at: usize, w: u32) -> usize
    ensures { Puts buf.old at (spaced_each (low_names w)) result buf.new }
{
    let values = [w / 128 % 2, w / 32 % 2, w / 8 % 2, w / 4 % 2];
    put_form(buf, at, b"?1 FLASH|?1 HALT|?1 INIT|?1 POR|", &values, 0)
}

// How many names the high byte has, and the low one.
fn high_count(w: u32) -> u32
    ensures { (result ≡ length (high_names w)) × (result < 8) }
{
    w / 32768 % 2
        + w / 16384 % 2
        + w / 4096 % 2
        + w / 2048 % 2
        + w / 1024 % 2
        + w / 512 % 2
        + w / 256 % 2
}

fn low_count(w: u32) -> u32
    ensures { (result ≡ length (low_names w)) × (result < 5) }
{
    w / 128 % 2 + w / 32 % 2 + w / 8 % 2 + w / 4 % 2
}

// The rows after the status.
pub fn put_last(buf: &mut [u8], at: usize, on: bool, w: u32) -> usize
    ensures { Puts buf.old at (ended_each (last_rows on w)) result buf.new }
{
    let values = [w];
    let a = numeral::put_text(buf, at, b"       Flash supply                        ");
    let b = put_either(buf, a, on, b"on", b"off");
    put_form(
        buf,
        b,
        b"\nFF     Control                  |$|       not carried\n|",
        &values,
        0,
    )
}
