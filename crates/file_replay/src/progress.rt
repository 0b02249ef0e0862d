// How many files are done, on one line of standard error, where that is a terminal.
use item_state::output::first_bytes;
use session::Errors;
use std::time::{Clock, CpuClock};

#[derive(Clone, Copy)]
pub struct Progress {
    pub on: bool,
    // How many files there are, or 0 where that is not told.
    pub total: u32,
    // The second that was seen last, and how many times another one was, 2 standing for more.
    pub second: u64,
    pub changes: u8,
    pub shown: bool,
}

pub fn begin(rt: &(impl Errors + Clock), total: u32) -> Progress {
    Progress {
        on: rt.is_shown(),
        total: total,
        second: second_now(rt),
        changes: 0,
        shown: false,
    }
}

// The seconds since 1970, or 0 where the clock can't be read.
fn second_now(rt: &impl Clock) -> u64 {
    match rt.since_1970() {
        Ok(time) => time.as_secs(),
        Err(_) => 0,
    }
}

// So many files are done. The line is written anew each second.
pub fn tell(rt: &(impl Errors + Clock + CpuClock), p: Progress, files: usize) -> Progress {
    if !p.on {
        return p;
    }
    let second = second_now(rt);
    if second == p.second {
        if p.shown {
            return p;
        }
        return told(rt, p, second, p.changes, files);
    }
    told(rt, p, second, one_more(p.changes), files)
}

fn one_more(changes: u8) -> u8 {
    if changes < 2 { changes + 1 } else { 2 }
}

fn told(
    rt: &(impl Errors + Clock + CpuClock),
    p: Progress,
    second: u64,
    changes: u8,
    files: usize,
) -> Progress {
    let due = is_long(rt, changes);
    if due {
        write_line(rt, files, p.total);
    }
    Progress {
        on: true,
        total: p.total,
        second: second,
        changes: changes,
        shown: due,
    }
}

// Whether more than a second has passed since the start: two other seconds were seen, or one, and the
// run has used the processor so long.
fn is_long(rt: &impl CpuClock, changes: u8) -> bool {
    if changes == 0 {
        return false;
    }
    if changes == 2 {
        return true;
    }
    match rt.process_cpu_time() {
        Ok(time) => 1 <= time.as_secs(),
        Err(_) => false,
    }
}

// `N of M files`. What is written next on the terminal goes over it.
fn write_line(rt: &impl Errors, files: usize, total: u32) {
    let mut out = [0u8; 64];
    let a = numeral::put_text(&mut out, 0, &[27, b'[', b'K']);
    let b = numeral::put_decimal(&mut out, a, files as u64);
    let c = put_total(&mut out, b, total);
    let d = numeral::put_text(&mut out, c, b" files\r");
    rt.tell(first_bytes(&out, d));
}

fn put_total(out: &mut [u8], at: usize, total: u32) -> usize {
    if total == 0 {
        return at;
    }
    let a = numeral::put_text(out, at, b" of ");
    numeral::put_decimal(out, a, total as u64)
}

// Takes the line away.
pub fn end(rt: &impl Errors, p: Progress) {
    if p.shown {
        rt.tell(&[27, b'[', b'K']);
    }
}
