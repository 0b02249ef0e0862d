// The set-up.
ghost use Rattle.std.specs.Prelude.{◌≡◌, ◌++◌, min, length, drop};
ghost use Rattle.numeral.specs.Ascii.{ascii};
ghost use Rattle.text.specs.Text.{ended_each};
ghost use Rattle.text.specs.OwnPut.{Puts};
ghost use Rattle.item_page.specs.Row.{names_or};
ghost use Rattle.item_page.specs.Registers.{pulses, divider, hits_text, timing1_text, timing2_text, control_names, oscillator_text, setup_rows};
ghost use Rattle.item_page_code.specs.OwnWords.{word_at};

use item_page_form::put_form;

pub fn put_setup(buf: &mut [u8], at: usize, words: &[u32]) -> usize
    requires { length words.now ≡ 80 }
    ensures { Puts buf.old at (ended_each (setup_rows (word_at words.now))) result buf.new }
{
    let a = put_form(
        buf,
        at,
        b"CONFIGURATION REGISTERS\n\
          B6     Reserved                 |$|       stored only\n\
          B7     Reserved                 |$|       stored only\n\
          B8     TOF1                     |$|       |",
        words,
        6,
    );
    let b = put_pulses(buf, a, words[8] / 256 % 256);
    let c = put_divider(buf, b, words[8] / 16 % 16);
    let d = put_form(
        buf,
        c,
        b"\nB9     TOF2                     |$|       |",
        words,
        9,
    );
    let e = put_hits(buf, d, words[9]);
    let f = put_form(
        buf,
        e,
        b"\nBA     TOF3                     |$|       stored only\n\
          BB     TOF4                     |$|       stored only\n\
          BC     TOF5                     |$|       stored only\n\
          BD     TOF6                     |$|       stored only\n\
          BE     TOF7                     |$|       stored only\n|",
        words,
        10,
    );
    put_control_rows(buf, f, words)
}

fn put_control_rows(buf: &mut [u8], at: usize, words: &[u32]) -> usize
    requires { length words.now ≡ 80 }
    ensures { Puts buf.old at (ended_each (drop 10 (setup_rows (word_at words.now)))) result buf.new }
{
    let a = put_form(
        buf,
        at,
        b"BF     Event Timing 1           |$|       |",
        words,
        15,
    );
    let b = put_timing1(buf, a, words[15]);
    let c = put_form(
        buf,
        b,
        b"\nC0     Event Timing 2           |$|       |",
        words,
        16,
    );
    let d = put_timing2(buf, c, words[16]);
    let e = put_form(
        buf,
        d,
        b"\nC1     TOF Measurement Delay    |$|       stored only\n\
          C2     Calibration and Control  |$|      |",
        words,
        17,
    );
    let f = put_control(buf, e, words[18]);
    let g = put_form(
        buf,
        f,
        b"\nC3     Real-Time Clock          |$|       |",
        words,
        19,
    );
    let h = put_oscillator(buf, g, words[19]);
    numeral::put_text(buf, h, b"\n")
}

fn put_pulses(buf: &mut [u8], at: usize, pl: u32) -> usize
    ensures { Puts buf.old at (pulses pl) result buf.new }
{
    if pl == 0 {
        return numeral::put_text(buf, at, b"PL off");
    }
    let values = [launched(pl)];
    put_form(buf, at, b"PL |& pulse|", &values, 0)
}

// Up to 127 pulses are launched.
fn launched(pl: u32) -> u32
    ensures { result ≡ min pl 127 }
{
    if pl < 127 { pl } else { 127 }
}

fn put_divider(buf: &mut [u8], at: usize, dpl: u32) -> usize
    ensures { Puts buf.old at (divider dpl) result buf.new }
{
    if dpl == 0 {
        return numeral::put_text(buf, at, b", DPL reserved");
    }
    let a = numeral::put_text(buf, at, b", DPL 2 MHz / ");
    numeral::put_decimal(buf, a, dpl as u64 + 1)
}

fn put_hits(buf: &mut [u8], at: usize, w: u32) -> usize
    ensures { Puts buf.old at (hits_text w) result buf.new }
{
    let values = [setup::stop_row(w / 8192 % 8), setup::timeout_row(w % 8)];
    put_form(buf, at, b"STOP |& hit|, TIMOUT |#| us|", &values, 0)
}

fn put_timing1(buf: &mut [u8], at: usize, w: u32) -> usize
    ensures { Puts buf.old at (timing1_text w) result buf.new }
{
    let halves = w / 4096 % 16 + 1;
    let values = [halves / 2, halves % 2 * 5, w / 128 % 32 + 1, w / 2 % 64 + 1];
    put_form(
        buf,
        at,
        b"TDF |#|.|#| s, TDM |& cycle|, TMF |#| s|",
        &values,
        0,
    )
}

fn put_timing2(buf: &mut [u8], at: usize, w: u32) -> usize
    ensures { Puts buf.old at (timing2_text w) result buf.new }
{
    let tp = w / 32 % 4;
    let values = [w / 2048 % 32 + 1, tp / 2, tp % 2, 128 * (w % 4 + 1)];
    put_form(
        buf,
        at,
        b"TMM |& cycle|, TP |#|#|b, PORTCYC |#| us|",
        &values,
        0,
    )
}

// With the blank before them.
fn put_control(buf: &mut [u8], at: usize, w: u32) -> usize
    ensures { Puts buf.old at (ascii " " ++ names_or "none" (control_names w)) result buf.new }
{
    let a = w / 512 % 2;
    let b = w / 256 % 2;
    let c = w / 128 % 2;
    let values = [a, b, c, a + b + c];
    put_form(
        buf,
        at,
        b"?1 INT_EN|?1 ET_CONT|?1 CONT_INT|?0 none|",
        &values,
        0,
    )
}

fn put_oscillator(buf: &mut [u8], at: usize, w: u32) -> usize
    ensures { Puts buf.old at (oscillator_text w) result buf.new }
{
    let mode = w / 4 % 4;
    let values = [w / 16 % 2, w / 16 % 2, mode / 2, mode % 2];
    put_form(
        buf,
        at,
        b"?1EOSC 1 clock stands, AM |?0EOSC 0 clock runs, AM |#|#|b|",
        &values,
        0,
    )
}
