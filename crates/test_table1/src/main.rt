// Writes the eleven rows of Table 1 of the MAX35102 data sheet: the Int and Frac words of a difference, and its nanoseconds.
#![tactic(auto)]

fn put_row(line: &mut [u8], word: u32) -> usize {
    let mut at = numeral::put_hex(line, 0, 4, word / 65536);
    at = numeral::put_text(line, at, b" ");
    at = numeral::put_hex(line, at, 4, word % 65536);
    at = numeral::put_text(line, at, b" ");
    at = numeral::put_signed_nanoseconds(line, at, word);
    numeral::put_text(line, at, b"\n")
}

// The bytes before the end of the row; none where it had no room. One that can't be written is passed over.
fn write_line(rt: &impl Print, line: &[u8], end: usize) {
    if end <= line.len() {
        let _ = rt.write_all(&line[..end]);
    }
}

fn write_row(rt: &impl Print, word: u32) {
    let mut line = [0u8; 32];
    let end = put_row(&mut line, word);
    write_line(rt, &line, end);
}

fn main(rt: HostRuntime) {
    let words = [
        0x7fffffff, 0x001c0403, 0x000100a1, 0x00000089, 0x00000001, 0x00000000, 0xffffffff,
        0xffffffc0, 0xfffe1432, 0xff1c8001, 0x80000000,
    ];
    for word in words {
        write_row(&rt, word);
    }
}
