// The results.
ghost use Rattle.std.specs.Prelude.{◌≡◌, eqb, get_or, ◌+◌, ◌<◌};
ghost use Rattle.unit.specs.Choice.{both};
ghost use Rattle.wording.specs.Text.{PutEach};
ghost use Rattle.form.specs.Form.{pair_of};
ghost use Rattle.page.specs.Results.{blanked, signed_time, difference_texts, up_rows, down_rows, difference_rows, port_rows};
ghost use Rattle.show.specs.Words.{PutRows};

use form::{put_form, value};
use item_state::output::words_from;

// FFFFh FFFFh.
const BLANKED: u32 = 4294967295;

pub fn put_ups(buf: &mut [u8], at: usize, words: &[u32]) -> usize
    ensures { PutRows up_rows words.now buf.old at result buf.new }
{
    put_form(
        buf,
        at,
        b"CONVERSION RESULTS REGISTERS|\n|\
          C4     WVRUP                    |$| not carried|\n|\
          C5 C6  Hit1UpInt/Frac           |=|\n|\
          C7 C8  Hit2UpInt/Frac           |=|\n|\
          C9 CA  Hit3UpInt/Frac           |=|\n|\
          CB CC  Hit4UpInt/Frac           |=|\n|\
          CD CE  Hit5UpInt/Frac           |=|\n|\
          CF D0  Hit6UpInt/Frac           |=|\n|\
          D1 D2  AVGUPInt/Frac            |=|\n|",
        words_from(words, 0xc4 - 0xb0),
    )
}

pub fn put_downs(buf: &mut [u8], at: usize, words: &[u32]) -> usize
    ensures { PutRows down_rows words.now buf.old at result buf.new }
{
    put_form(
        buf,
        at,
        b"D3     WVRDN                    |$| not carried|\n|\
          D4 D5  Hit1DnInt/Frac           |=|\n|\
          D6 D7  Hit2DnInt/Frac           |=|\n|\
          D8 D9  Hit3DnInt/Frac           |=|\n|\
          DA DB  Hit4DnInt/Frac           |=|\n|\
          DC DD  Hit5DnInt/Frac           |=|\n|\
          DE DF  Hit6DnInt/Frac           |=|\n|\
          E0 E1  AVGDNInt/Frac            |=|\n|",
        words_from(words, 0xd3 - 0xb0),
    )
}

pub fn put_differences(buf: &mut [u8], at: usize, words: &[u32]) -> usize
    ensures { PutRows difference_rows words.now buf.old at result buf.new }
{
    let a = put_form(
        buf,
        at,
        b"E2 E3  TOF_DIFFInt/Frac         |<|",
        words_from(words, 0xe2 - 0xb0),
    );
    let b = put_difference_time(buf, a, pair(words, 0xe2 - 0xb0), pair(words, 0xd1 - 0xb0));
    let c = put_form(
        buf,
        b,
        b"\n|E4     TOF_Cycle_Count          |@| good cycles: |#|\n|\
          E5 E6  TOF_DIFF_AVGInt/Frac     |<|",
        words_from(words, 0xe4 - 0xb0),
    );
    let d = put_signed_time(buf, c, pair(words, 0xe5 - 0xb0));
    numeral::put_text(buf, d, b"\n")
}

pub fn put_ports(buf: &mut [u8], at: usize, words: &[u32]) -> usize
    ensures { PutRows port_rows words.now buf.old at result buf.new }
{
    put_form(
        buf,
        at,
        b"E7 E8  T1Int/Frac               |>|\n|\
          E9 EA  T2Int/Frac               |>|\n|\
          EB EC  T3Int/Frac               |>|\n|\
          ED EE  T4Int/Frac               |>|\n|\
          EF     Temp_Cycle_Count         |@| good cycles: |#|\n|\
          F0 F1  T1_AVGInt/Frac           |=|\n|\
          F2 F3  T2_AVGInt/Frac           |=|\n|\
          F4 F5  T3_AVGInt/Frac           |=|\n|\
          F6 F7  T4_AVGInt/Frac           |=|\n|",
        words_from(words, 0xe7 - 0xb0),
    )
}

// The word of 32 bits of a pair of registers, Int and Frac.
fn pair(words: &[u32], i: usize) -> u32
    requires { i < 80 }
    ensures { result ≡ pair_of (get_or words.now i 0) (get_or words.now (i + 1) 0) }
{
    form::pair_of(value(words, i), value(words, i + 1))
}

fn put_signed_time(buf: &mut [u8], at: usize, w: u32) -> usize
    ensures { PutEach buf.old at (signed_time w) result buf.new }
{
    let mut field = [b' '; 32];
    let end = numeral::put_signed_nanoseconds(&mut field, 14, w);
    let start = end - 14;
    let a = numeral::put_text(buf, at, &field[start..end]);
    numeral::put_text(buf, a, b" ns")
}

fn put_difference_time(buf: &mut [u8], at: usize, w: u32, up: u32) -> usize
    ensures { PutEach buf.old at (difference_texts w up) result buf.new }
{
    if failed(w, up) {
        return numeral::put_text(buf, at, b"no time");
    }
    put_signed_time(buf, at, w)
}

// Of a difference of -1, AVGUP alone says whether the measurement failed.
fn failed(w: u32, up: u32) -> bool
    ensures { result ≡ both (eqb up blanked) (eqb w blanked) }
{
    if up == BLANKED {
        return w == BLANKED;
    }
    false
}
