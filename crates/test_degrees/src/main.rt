// Writes the temperatures of probe words over the built-in table, then over others. A row has the probe word, the reference word,
// and the thousandths of a degree or `no` and the number of the refusal; over another table its size stands in front.
// `peer/readings.py` works out the same rows by itself.
#![tactic(auto)]

use refusal::Refusal;
use std::array;

fn put_reading(line: &mut [u8], at: usize, reading: Result<u32, Refusal>) -> usize {
    match reading {
        Ok(t) => numeral::put_decimal(line, at, u64::from(t)),
        Err(refusal) => {
            let next = numeral::put_text(line, at, b"no ");
            numeral::put_decimal(line, next, u64::from(refusal.number()))
        }
    }
}

fn put_row(
    line: &mut [u8],
    from: usize,
    probe: u32,
    reference: u32,
    reading: Result<u32, Refusal>,
) -> usize {
    let mut at = numeral::put_decimal(line, from, u64::from(probe));
    at = numeral::put_text(line, at, b" ");
    at = numeral::put_decimal(line, at, u64::from(reference));
    at = numeral::put_text(line, at, b" ");
    at = put_reading(line, at, reading);
    numeral::put_text(line, at, b"\n")
}

// The bytes before the end of the row; none where it had no room. One that can't be written is passed over.
fn write_line(rt: &impl Print, line: &[u8], end: usize) {
    if end <= line.len() {
        let _ = rt.write_all(&line[..end]);
    }
}

fn write_row(rt: &impl Print, probe: u32, reference: u32) {
    let mut line = [0u8; 48];
    let reading = thermometer::degrees(probe, reference);
    let end = put_row(&mut line, 0, probe, reference, reading);
    write_line(rt, &line, end);
}

// A row for each pair of a probe word and a reference word.
fn write_rows(rt: &impl Print, words: &[(u32, u32)]) {
    for (probe, reference) in words {
        write_row(rt, *probe, *reference);
    }
}

fn write_row_by(rt: &impl Print, table: &[u32], probe: u32, reference: u32) {
    let mut line = [0u8; 64];
    let n = numeral::put_decimal(&mut line, 0, table.len() as u64);
    let from = numeral::put_text(&mut line, n, b": ");
    let reading = thermometer::degrees_by(table, probe, reference);
    let end = put_row(&mut line, from, probe, reference, reading);
    write_line(rt, &line, end);
}

fn write_rows_by(rt: &impl Print, table: &[u32], words: &[(u32, u32)]) {
    for (probe, reference) in words {
        write_row_by(rt, table, *probe, *reference);
    }
}

// Every 3,803 milliohms along the table.
fn write_sweep(rt: &impl Print) {
    for i in 0..181u32 {
        write_row(rt, 1000000 + 3803 * i, 1000000);
    }
}

fn write_three_entries(rt: &impl Print) {
    let table = [500000u32, 510000, 530000];
    let words = [
        (499999, 1000000),
        (1, 2),
        (509999, 1000000),
        (510000, 1000000),
        (524687, 1000000),
        (529999, 1000000),
        (530000, 1000000),
        (530001, 1000000),
        (1, 0),
    ];
    write_rows_by(rt, &table, &words);
}

// From 0 to the largest entry, one milliohm above it, and entries that do not rise.
fn write_two_entries(rt: &impl Print) {
    let widest = [0u32, 10000000];
    write_rows_by(rt, &widest, &[(0, 1), (1, 3), (10, 1), (11, 1)]);
    write_row_by(rt, &[0u32, 10000001], 0, 1);
    write_row_by(rt, &[5u32, 5], 0, 1);
    write_row_by(rt, &[6u32, 5], 4294967295, 0);
}

// 0, 1,000, 2,000 and so on.
fn ramp() -> [u32; 513] {
    array::from_fn(|i| 1000 * i as u32)
}

// Tables of 1, 512 and 513 entries.
fn write_long_tables(rt: &impl Print) {
    let table = ramp();
    write_row_by(rt, &table[0..1], 0, 1);
    let words = [(511, 1000), (255999, 1000000), (511001, 1000000)];
    write_rows_by(rt, &table[0..512], &words);
    write_row_by(rt, &table, 511, 1000);
}

fn main(rt: HostRuntime) {
    // The table's ends, and the milliohms beside them.
    let ends = [
        (999999, 1000000),
        (1000000, 1000000),
        (1684783, 1000000),
        (1684784, 1000000),
    ];
    // About entry 1 and entry 100.
    let entries = [
        (1003907, 1000000),
        (1003908, 1000000),
        (1385054, 1000000),
        (1385055, 1000000),
        (1385056, 1000000),
    ];
    // Resistances that are rounded down.
    let rounded = [
        (1, 1),
        (3, 2),
        (4, 3),
        (7, 5),
        (5000000, 2967743),
        (5000000, 5000001),
    ];
    // Words that are no readings.
    let no_readings = [
        (4294967295, 4000000000),
        (4294967294, 4000000000),
        (4294967295, 4294967295),
        (4294967294, 4294967295),
        (4294967294, 4294967294),
        (0, 0),
        (1, 0),
        (0, 1),
        (4294967294, 1),
    ];
    write_rows(&rt, &ends);
    write_rows(&rt, &entries);
    write_rows(&rt, &rounded);
    write_rows(&rt, &no_readings);
    write_sweep(&rt);
    write_three_entries(&rt);
    write_two_entries(&rt);
    write_long_tables(&rt);
}
