// The set-up.
ghost use Rattle.std.specs.Prelude.{◌≡◌, min};
ghost use Rattle.wording.specs.Text.{PutEach};
ghost use Rattle.page.specs.Row.{ended};
ghost use Rattle.page.specs.Setup.{pulses, divider, tof1_row, tof2_row, timing1_row, timing2_row, control_row, oscillator_row, setup_rows, more_setup_rows};
ghost use Rattle.show.specs.Words.{PutRows};

use form::{put_form, value};
use item_state::output::words_from;

pub fn put_setup(buf: &mut [u8], at: usize, words: &[u32]) -> usize
    ensures { PutRows setup_rows words.now buf.old at result buf.new }
{
    let a = put_form(
        buf,
        at,
        b"CONFIGURATION REGISTERS|\n|\
          B6     Reserved                 |$| stored only|\n|\
          B7     Reserved                 |$| stored only|\n|",
        words_from(words, 0xb6 - 0xb0),
    );
    let b = put_tof1(buf, a, value(words, 0xb8 - 0xb0));
    let c = put_tof2(buf, b, value(words, 0xb9 - 0xb0));
    put_form(
        buf,
        c,
        b"BA     TOF3                     |$| stored only|\n|\
          BB     TOF4                     |$| stored only|\n|\
          BC     TOF5                     |$| stored only|\n|",
        words_from(words, 0xba - 0xb0),
    )
}

pub fn put_more_setup(buf: &mut [u8], at: usize, words: &[u32]) -> usize
    ensures { PutRows more_setup_rows words.now buf.old at result buf.new }
{
    let a = put_form(
        buf,
        at,
        b"BD     TOF6                     |$| stored only|\n|\
          BE     TOF7                     |$| stored only|\n|",
        words_from(words, 0xbd - 0xb0),
    );
    let b = put_timing1(buf, a, value(words, 0xbf - 0xb0));
    let c = put_timing2(buf, b, value(words, 0xc0 - 0xb0));
    let d = put_form(
        buf,
        c,
        b"C1     TOF Measurement Delay    |$| stored only|\n|",
        words_from(words, 0xc1 - 0xb0),
    );
    let e = put_control(buf, d, value(words, 0xc2 - 0xb0));
    put_oscillator(buf, e, value(words, 0xc3 - 0xb0))
}

fn put_pulses(buf: &mut [u8], at: usize, pl: u32) -> usize
    ensures { PutEach buf.old at (pulses pl) result buf.new }
{
    if pl == 0 {
        return numeral::put_text(buf, at, b" PL off");
    }
    let values = [launched(pl)];
    put_form(buf, at, b" PL |& pulse|", &values)
}

// Up to 127 pulses are launched.
fn launched(pl: u32) -> u32
    ensures { result ≡ min pl 127 }
{
    if pl < 127 { pl } else { 127 }
}

fn put_divider(buf: &mut [u8], at: usize, dpl: u32) -> usize
    ensures { PutEach buf.old at (divider dpl) result buf.new }
{
    if dpl == 0 {
        return numeral::put_text(buf, at, b", DPL reserved");
    }
    let a = numeral::put_text(buf, at, b", DPL 2 MHz / ");
    numeral::put_decimal(buf, a, dpl as u64 + 1)
}

fn put_tof1(buf: &mut [u8], at: usize, w: u32) -> usize
    ensures { PutEach buf.old at (ended (tof1_row w)) result buf.new }
{
    let values = [w];
    let a = put_form(buf, at, b"B8     TOF1                     |$|", &values);
    let b = put_pulses(buf, a, w / 256 % 256);
    let c = put_divider(buf, b, w / 16 % 16);
    numeral::put_text(buf, c, b"\n")
}

fn put_tof2(buf: &mut [u8], at: usize, w: u32) -> usize
    ensures { PutEach buf.old at (ended (tof2_row w)) result buf.new }
{
    let values = [w, setup::stop_row(w / 8192 % 8), setup::timeout_row(w % 8)];
    put_form(
        buf,
        at,
        b"B9     TOF2                     |$| STOP |& hit|, TIMOUT |#| us|\n|",
        &values,
    )
}

fn put_timing1(buf: &mut [u8], at: usize, w: u32) -> usize
    ensures { PutEach buf.old at (ended (timing1_row w)) result buf.new }
{
    let halves = w / 4096 % 16 + 1;
    let values = [
        w,
        halves / 2,
        halves % 2 * 5,
        w / 128 % 32 + 1,
        w / 2 % 64 + 1,
    ];
    put_form(
        buf,
        at,
        b"BF     Event Timing 1           |$| TDF |#|.|#| s, TDM |& cycle|, TMF |#| s|\n|",
        &values,
    )
}

fn put_timing2(buf: &mut [u8], at: usize, w: u32) -> usize
    ensures { PutEach buf.old at (ended (timing2_row w)) result buf.new }
{
    let tp = w / 32 % 4;
    let values = [w, w / 2048 % 32 + 1, tp / 2, tp % 2, 128 * (w % 4 + 1)];
    put_form(
        buf,
        at,
        b"C0     Event Timing 2           |$| TMM |& cycle|, TP |#|#|b|, PORTCYC |#| us|\n|",
        &values,
    )
}

fn put_control(buf: &mut [u8], at: usize, w: u32) -> usize
    ensures { PutEach buf.old at (ended (control_row w)) result buf.new }
{
    let values = [w, w / 512 % 2, w / 256 % 2, w / 128 % 2, w / 128 % 8];
    put_form(
        buf,
        at,
        b"C2     Calibration and Control  |$|?1 INT_EN|?1 ET_CONT|?1 CONT_INT|?0 none|\n|",
        &values,
    )
}

fn put_oscillator(buf: &mut [u8], at: usize, w: u32) -> usize
    ensures { PutEach buf.old at (ended (oscillator_row w)) result buf.new }
{
    let mode = w / 4 % 4;
    let values = [w, w / 16 % 2, w / 16 % 2, mode / 2, mode % 2];
    put_form(
        buf,
        at,
        b"C3     Real-Time Clock          |$|?1 EOSC 1 clock stands, AM |?0 EOSC 0 clock runs, AM |#|#|b|\n|",
        &values,
    )
}
