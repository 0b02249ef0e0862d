// Writes listings of differences, for comparison with stored output: what `peer/listing.py` wrote, by exact fractions.
#![tactic(auto)]

use listing::Width;
use refusal::Refusal;

// The eleven differences of Table 1 of the MAX35102 data sheet; halves of a ten-thousandth; steps of a digit more.
const DIFFERENCES: [i32; 24] = [
    2147483647,
    1836035,
    65697,
    137,
    1,
    0,
    -1,
    -64,
    -125902,
    -14909439,
    -2147483648,
    1024,
    -1024,
    3072,
    -3072,
    262,
    263,
    2621,
    -2622,
    26214,
    26215,
    262143,
    262144,
    -2621440,
];

// The whole output, or the number of a refusal.
fn write_out(rt: &impl Print, listed: Result<usize, Refusal>, out: &[u8]) {
    match listed {
        Ok(_) => write_bytes(rt, out),
        Err(refusal) => write_number(rt, refusal.number()),
    }
}

// What can't be written is passed over.
fn write_bytes(rt: &impl Print, out: &[u8]) {
    let _ = rt.write_all(out);
    let _ = rt.write_all(b"\n");
}

fn write_number(rt: &impl Print, number: u32) {
    let mut text = [0u8; 16];
    let end = numeral::put_decimal(&mut text, 0, u64::from(number));
    write_part(rt, &text, end);
}

fn write_part(rt: &impl Print, text: &[u8], end: usize) {
    if end <= text.len() {
        write_bytes(rt, &text[..end]);
    }
}

// All of them, from a first capture on: in eight digits.
fn list_all(rt: &impl Print, first: u32, out: &mut [u8]) {
    let listed = listing::write_listing(&DIFFERENCES, first, out);
    write_out(rt, listed, out);
}

// In two digits.
fn list_old(rt: &impl Print, first: u32, out: &mut [u8]) {
    let listed = listing::write_listing_as(Width::Two, &DIFFERENCES, first, out);
    write_out(rt, listed, out);
}

fn list_none(rt: &impl Print, width: Width, first: u32) {
    let mut out = [b'.'; 2];
    let listed = listing::write_listing_as(width, &[], first, &mut out);
    write_out(rt, listed, &out);
}

fn main(rt: HostRuntime) {
    let mut out = [b'.'; 555];
    list_all(&rt, 4294967272, &mut out);
    list_all(&rt, 4294967273, &mut out);
    list_all(&rt, 233, &mut out);
    let mut short = [b'.'; 551];
    list_all(&rt, 0, &mut short);
    let mut old = [b'.'; 411];
    list_old(&rt, 232, &mut old);
    list_old(&rt, 233, &mut old);
    let mut shortest = [b'.'; 407];
    list_old(&rt, 0, &mut shortest);
    list_none(&rt, Width::Two, 4294967295);
    list_none(&rt, Width::Eight, 4294967295);
}
