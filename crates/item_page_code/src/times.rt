// The results.
ghost use Rattle.std.specs.Prelude.{◌≡◌, eqb, length, drop};
ghost use Rattle.unit.specs.Choice.{both};
ghost use Rattle.text.specs.Text.{ended_each};
ghost use Rattle.text.specs.OwnPut.{Puts};
ghost use Rattle.item_page.specs.Registers.{blanked, difference_text};
ghost use Rattle.item_page_code.specs.OwnWords.{flight_by, temperature_by};

use item_page_form::{pair_of, put_form, put_signed_time};

// FFFFh FFFFh.
const BLANKED: u32 = 4294967295;

pub fn put_flight(buf: &mut [u8], at: usize, words: &[u32]) -> usize
    requires { length words.now ≡ 80 }
    ensures { Puts buf.old at (ended_each (flight_by words.now)) result buf.new }
{
    let a = put_form(
        buf,
        at,
        b"CONVERSION RESULTS REGISTERS\n\
          C4     WVRUP                    |$|       not carried\n\
          C5 C6  Hit1UpInt/Frac           |=|\n\
          C7 C8  Hit2UpInt/Frac           |=|\n\
          C9 CA  Hit3UpInt/Frac           |=|\n\
          CB CC  Hit4UpInt/Frac           |=|\n\
          CD CE  Hit5UpInt/Frac           |=|\n\
          CF D0  Hit6UpInt/Frac           |=|\n\
          D1 D2  AVGUPInt/Frac            |=|\n\
          D3     WVRDN                    |$|       not carried\n\
          D4 D5  Hit1DnInt/Frac           |=|\n\
          D6 D7  Hit2DnInt/Frac           |=|\n\
          D8 D9  Hit3DnInt/Frac           |=|\n\
          DA DB  Hit4DnInt/Frac           |=|\n\
          DC DD  Hit5DnInt/Frac           |=|\n\
          DE DF  Hit6DnInt/Frac           |=|\n\
          E0 E1  AVGDNInt/Frac            |=|\n|",
        words,
        0xc4 - 0xb0,
    );
    put_differences(buf, a, words)
}

fn put_differences(buf: &mut [u8], at: usize, words: &[u32]) -> usize
    requires { length words.now ≡ 80 }
    ensures { Puts buf.old at (ended_each (drop 17 (flight_by words.now))) result buf.new }
{
    let a = put_form(
        buf,
        at,
        b"E2 E3  TOF_DIFFInt/Frac         |<|",
        words,
        0xe2 - 0xb0,
    );
    let b = put_difference(
        buf,
        a,
        pair_of(words[0xe2 - 0xb0], words[0xe3 - 0xb0]),
        pair_of(words[0xd1 - 0xb0], words[0xd2 - 0xb0]),
    );
    let c = put_form(
        buf,
        b,
        b"\nE4     TOF_Cycle_Count          |@|       good cycles: |#|\n\
          E5 E6  TOF_DIFF_AVGInt/Frac     |<|",
        words,
        0xe4 - 0xb0,
    );
    let d = put_signed_time(buf, c, pair_of(words[0xe5 - 0xb0], words[0xe6 - 0xb0]));
    numeral::put_text(buf, d, b"\n")
}

pub fn put_temperatures(buf: &mut [u8], at: usize, words: &[u32]) -> usize
    ensures { Puts buf.old at (ended_each (temperature_by words.now)) result buf.new }
{
    put_form(
        buf,
        at,
        b"E7 E8  T1Int/Frac               |>|\n\
          E9 EA  T2Int/Frac               |>|\n\
          EB EC  T3Int/Frac               |>|\n\
          ED EE  T4Int/Frac               |>|\n\
          EF     Temp_Cycle_Count         |@|       good cycles: |#|\n\
          F0 F1  T1_AVGInt/Frac           |=|\n\
          F2 F3  T2_AVGInt/Frac           |=|\n\
          F4 F5  T3_AVGInt/Frac           |=|\n\
          F6 F7  T4_AVGInt/Frac           |=|\n\
          F8 F9  CalibrationInt/Frac      |<|not carried\n\
          FA FB  Reserved                 |<|not carried\n\
          FC FD  Reserved                 |<|not carried\n|",
        words,
        0xe7 - 0xb0,
    )
}

fn put_difference(buf: &mut [u8], at: usize, w: u32, up: u32) -> usize
    ensures { Puts buf.old at (difference_text w up) result buf.new }
{
    if failed(w, up) {
        return numeral::put_text(buf, at, b"no time");
    }
    put_signed_time(buf, at, w)
}

// Of a difference of -1, AVGUP alone says whether the measurement failed.
fn failed(w: u32, up: u32) -> bool
    ensures { result ≡ both (eqb up blanked) (eqb w blanked) }
{
    up == BLANKED && w == BLANKED
}
