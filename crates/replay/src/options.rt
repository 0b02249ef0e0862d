// What the arguments ask for, as the operating system hands them out.
ghost use Rattle.replay.specs.Given.{Given};

use arguments::Options;
use file_replay::System;
use std::env::FillError;

// How many arguments the program was started with, its own name among them.
pub fn count(rt: &impl System) -> usize {
    let mut word = [0u8; 1];
    for i in 0..usize::MAX {
        if is_missing(rt, i, &mut word) {
            return i;
        }
    }
    usize::MAX
}

fn is_missing(rt: &impl System, i: usize, word: &mut [u8]) -> bool {
    matches!(rt.argument(i, word), Err(FillError::NotPresent))
}

// What n arguments ask for, the program's name among them. One that is longer than the buffer comes as
// a word of no bytes, which is no option and no number.
pub fn given(rt: &impl System, n: usize) -> Options
    ensures { Given n result }
{
    let mut word = [0u8; 4096];
    let mut reading = arguments::begin();
    for i in 1..n {
        if !arguments::is_open(reading) {
            break;
        }
        let length = rt.argument(i, &mut word).unwrap_or(0);
        reading = arguments::next(reading, &word[..length]);
    }
    arguments::asked(reading, n)
}
