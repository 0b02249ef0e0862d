// What is read, and what of it is to be answered next.
ghost use Rattle.std.specs.Prelude.{◌≡◌, ◌-◌, ◌≤◌, ◌<◌, length, take, drop};
ghost use Rattle.session.specs.Flush.{line_ending};
ghost use Rattle.session.specs.Input.{to_answer, state_after, bytes_after, goes_on, was_whole, over_from, number_of, ReadOn, WentOn};

use crate::unread::{Errors, tell_unread};
use item_state::output::{bytes_from, first_bytes};
use line_buffer::{has_line, hold};
use std::io;
use std::io::Read;

// What of the buffer is still to be answered, and how far reading has come.
#[derive(Clone, Copy)]
pub struct Input {
    pub from: usize,
    pub end: usize,
    pub state: InputState,
}

// The file may have more bytes; it has none; it can't be read; and there is nothing left to answer either, of a file read to its end or
// not.
#[derive(Clone, Copy, PartialEq, Eq)]
pub enum InputState {
    More,
    Ended,
    Unreadable,
    Done,
    BrokenOff,
}

// Whether there is something to answer or to read.
#[tactic(auto, unfolding(crate::specs::Input::goes_on))]
pub fn is_going(input: Input) -> bool
    ensures { result ≡ goes_on (number_of input.state) }
{
    !matches!(input.state, InputState::Done | InputState::BrokenOff)
}

// Whether the file was read to its end, and all of it is answered.
#[tactic(auto, unfolding(crate::specs::Input::was_whole))]
pub fn is_whole(input: Input) -> bool
    ensures { result ≡ was_whole (number_of input.state) }
{
    input.state == InputState::Done
}

// What is to be answered next: a line that is left in the buffer, or, where none is, what is read on. As many bytes as `left` says are
// not answered yet.
pub fn go_on(
    rt: &(impl Errors + Alloc),
    file: &mut impl Read,
    path: &[u8],
    part: &mut [u8],
    input: Input,
    left: usize,
) -> Input
    requires { (1002 < length part.old) × (input.end ≤ length part.old) × (left ≤ input.end) }
    ensures { WentOn (drop (input.end - left) (take input.end part.old)) (number_of input.state) (number_of result.state) (to_answer result.from result.end part.new) × (result.end ≤ length part.new) }
{
    let end = input.end;
    let state = input.state;
    let from = end - left;
    if has_line(bytes_from(first_bytes(part, end), from)) {
        return Input { from, end, state };
    }
    if state != InputState::More {
        return Input {
            from: 0,
            end: 0,
            state: over(state),
        };
    }
    let held = hold(part, from, end);
    read_more(rt, file, path, part, held)
}

// There is nothing left to answer.
#[tactic(auto, unfolding(crate::specs::Input::over_from))]
fn over(state: InputState) -> InputState
    ensures { number_of result ≡ over_from (number_of state) }
{
    match state {
        InputState::Unreadable => InputState::BrokenOff,
        _ => InputState::Done,
    }
}

// Reads on behind the bytes that are held.
fn read_more(
    rt: &(impl Errors + Alloc),
    file: &mut impl Read,
    path: &[u8],
    part: &mut [u8],
    held: usize,
) -> Input
    requires { held < length part.old }
    ensures { ReadOn (take held part.old) (number_of result.state) (to_answer result.from result.end part.new) × (result.end ≤ length part.new) }
{
    let got = file.read(&mut part[held..]);
    after_read(rt, got, path, part, held)
}

// What is to be answered once the system has told how many bytes it put behind those that are held: none at the end of the file, and an
// error where it can't be read. A last line without a line feed gets one.
fn after_read(
    rt: &(impl Errors + Alloc),
    got: io::Result<usize>,
    path: &[u8],
    part: &mut [u8],
    held: usize,
) -> Input
    requires { held < length part.old }
    ensures { (number_of result.state ≡ state_after got) × (to_answer result.from result.end part.new ≡ bytes_after got held part.old) × (result.end ≤ length part.new) }
{
    match got {
        Err(error) => {
            tell_unread(rt, path, &error);
            Input {
                from: 0,
                end: 0,
                state: InputState::Unreadable,
            }
        }
        Ok(n) => {
            if n == 0 {
                return Input {
                    from: 0,
                    end: end_line(part, held),
                    state: InputState::Ended,
                };
            }
            Input {
                from: 0,
                end: held + n.min(part.len() - held),
                state: InputState::More,
            }
        }
    }
}

// Puts a line feed behind the bytes that are held, if some are.
fn end_line(part: &mut [u8], held: usize) -> usize
    requires { held < length part.old }
    ensures { (take result part.new ≡ line_ending (take held part.old)) × (result ≤ length part.new) }
{
    if held == 0 {
        return 0;
    }
    part[held] = 10;
    held + 1
}
