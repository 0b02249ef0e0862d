// The status, and the registers around it.
ghost use Rattle.std.specs.Prelude.{◌≡◌};
ghost use Rattle.wording.specs.Text.{PutEach};
ghost use Rattle.item_state.specs.Told.{told_value};
ghost use Rattle.device.specs.Question.{regulator_on};
ghost use Rattle.page.specs.Row.{ended, lines};
ghost use Rattle.page.specs.Results.{high_names, low_names, takes_two, status_rows, supply_row, last_rows};
ghost use Rattle.device.specs.declared.Model.{Model};
ghost use Rattle.show.specs.Words.{page_words};

use crate::row::put_line;
use form::{put_form, value};
use item_state::output::words_from;

// With what is told of the regulator.
pub fn put_last(buf: &mut [u8], at: usize, words: &[u32], on: u32) -> usize
    ensures { (m : Model) → words.now ≡ page_words m → on ≡ told_value (regulator_on m) → PutEach buf.old at (lines (last_rows m)) result buf.new }
{
    let a = put_form(
        buf,
        at,
        b"F8 F9  CalibrationInt/Frac      |<|not carried|\n|\
          FA FB  Reserved                 |<|not carried|\n|\
          FC FD  Reserved                 |<|not carried|\n|\
          STATUS REGISTERS|\n|",
        words_from(words, 0xf8 - 0xb0),
    );
    let b = put_status(buf, a, value(words, 0xfe - 0xb0));
    let c = put_supply(buf, b, on);
    put_form(
        buf,
        c,
        b"FF     Control                  |$| not carried|\n|",
        words_from(words, 0xff - 0xb0),
    )
}

fn put_high_names(buf: &mut [u8], at: usize, w: u32) -> usize
    ensures { PutEach buf.old at (high_names w) result buf.new }
{
    let values = [
        w / 32768 % 2,
        w / 16384 % 2,
        w / 4096 % 2,
        w / 2048 % 2,
        w / 1024 % 2,
        w / 512 % 2,
        w / 256 % 2,
    ];
    put_form(
        buf,
        at,
        b"?1 TO|?1 AF|?1 TOF|?1 TE|?1 LDO|?1 TOF_EVTMG|?1 TEMP_EVTMG|",
        &values,
    )
}

fn put_low_names(buf: &mut [u8], at: usize, w: u32) -> usize
    ensures { PutEach buf.old at (low_names w) result buf.new }
{
    let values = [w / 128 % 2, w / 32 % 2, w / 8 % 2, w / 4 % 2];
    put_form(buf, at, b"?1 FLASH|?1 HALT|?1 INIT|?1 POR|", &values)
}

// Both bytes have bits.
fn takes_two(w: u32) -> bool
    ensures { result ≡ takes_two w }
{
    if w % 256 == 0 {
        return false;
    }
    256 <= w
}

fn put_status(buf: &mut [u8], at: usize, w: u32) -> usize
    ensures { PutEach buf.old at (lines (status_rows w)) result buf.new }
{
    let values = [w];
    let a = put_form(buf, at, b"FE     Interrupt Status         |$|", &values);
    let b = put_high_names(buf, a, w);
    if takes_two(w) {
        let c = put_form(
            buf,
            b,
            b"\n|                                          |",
            &values,
        );
        let d = put_low_names(buf, c, w);
        return numeral::put_text(buf, d, b"\n");
    }
    let c = put_low_names(buf, b, w);
    put_form(buf, c, b"?0 none|\n|", &values)
}

fn put_supply(buf: &mut [u8], at: usize, on: u32) -> usize
    ensures { PutEach buf.old at (ended (supply_row on)) result buf.new }
{
    if on == 0 {
        return put_line(buf, at, b"       Flash supply                        off");
    }
    put_line(buf, at, b"       Flash supply                        on")
}
