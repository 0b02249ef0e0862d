// The names of the files, one after the other: those of the list, then those of the arguments.
ghost use Rattle.std.specs.Prelude.{◌-◌, eqb, length, true, false, [], ◌≡◌};
ghost use Rattle.file_replay.specs.Sources.{number_of, is_there, unused, Stands, NextArgument, FromList, StepFrom, Ended, AfterRead};

use crate::opened::{OpenedBy, close, open};
use crate::system::{System, put_argument};
use arguments::Options;
use file_names::take_name;
use item_state::counts::more;
use item_state::output::first_bytes;
use session::tell_unread;
use std::io;
use std::io::Read;

// Where the next name comes from, and the one that was found last.
#[derive(Clone, Copy)]
pub struct Source {
    // Whether names may come from a list, its place among the arguments, and the bytes of it that are
    // read and not used yet.
    pub listed: bool,
    pub list: usize,
    pub at: usize,
    pub end: usize,
    // The next argument, and how many are left.
    pub next: usize,
    pub left: usize,
    pub state: SourceState,
    // The length of the name.
    pub length: usize,
}

#[derive(Clone, Copy, PartialEq, Eq)]
pub enum SourceState {
    // A name is sought in the list.
    Seeking,
    // A name was found.
    Found,
    // The name is the list's own, which can't be read.
    Broken,
    // There are no more names.
    NoMore,
}

pub fn is_there(s: Source) -> bool
    ensures { result ≡ is_there s }
{
    s.state != SourceState::NoMore
}

// The source of the names that are asked for, with the first of them. Their list is opened, where there is one.
pub fn first<R: System>(
    rt: &R,
    o: Options,
    list: &mut OpenedBy<R>,
    part: &mut [u8],
    path: &mut [u8],
) -> Source
    ensures { (o.list ≡ 0 → NextArgument o.first o.files result) × (¬ (o.list ≡ 0) → FromList (length path.old) o.first o.files [] [] result (unused result part.new) path.new) }
{
    if o.list == 0 {
        return argument(rt, source_of(o), path);
    }
    match open_list(rt, o.list, path) {
        None => broken(rt, source_of(o), path),
        Some(file) => {
            *list = file;
            seek(rt, source_of(o), list, part, path)
        }
    }
}

// The source before the first name.
fn source_of(o: Options) -> Source
    ensures { (result.next ≡ o.first) × (result.left ≡ o.files) × (result.at ≡ 0) × (result.end ≡ 0) }
{
    Source {
        listed: true,
        list: o.list,
        at: 0,
        end: 0,
        next: o.first,
        left: o.files,
        state: SourceState::Seeking,
        length: 0,
    }
}

// The list; where it can't be opened, it is told by name with the system's words.
fn open_list<R: System>(rt: &R, i: usize, path: &mut [u8]) -> Option<OpenedBy<R>> {
    match put_argument(rt, i, path) {
        Ok(length) => open_told(rt, &path[..length]),
        Err(error) => {
            tell_unread(rt, b"--files", &error);
            None
        }
    }
}

fn open_told<R: System>(rt: &R, path: &[u8]) -> Option<OpenedBy<R>> {
    match open(rt, path) {
        Ok(file) => Some(file),
        Err(error) => {
            tell_unread(rt, path, &error);
            None
        }
    }
}

// The list can't be read; its name stands for the names that it would have had.
fn broken<R: System>(rt: &R, s: Source, path: &mut [u8]) -> Source
    ensures { Stands s.next s.left false 2 result }
{
    let length = put_argument(rt, s.list, path).unwrap_or(0);
    past_list(s, SourceState::Broken, length)
}

// The source with the list behind it.
fn past_list(s: Source, state: SourceState, length: usize) -> Source
    ensures { Stands s.next s.left false (number_of state) result × (result.length ≡ length) }
{
    Source {
        listed: false,
        list: s.list,
        at: 0,
        end: 0,
        next: s.next,
        left: s.left,
        state: state,
        length: length,
    }
}

// The source with the name after the one that it has.
pub fn next<R: System>(
    rt: &R,
    s: Source,
    list: &mut OpenedBy<R>,
    part: &mut [u8],
    path: &mut [u8],
) -> Source
    ensures { (s.listed ≡ false → NextArgument s.next s.left result) × (s.listed ≡ true → FromList (length path.old) s.next s.left [] (unused s part.old) result (unused result part.new) path.new) }
{
    if s.listed {
        return seek(rt, s, list, part, path);
    }
    argument(rt, s, path)
}

// The next name of the list, or where that has none the first argument.
//
// Nothing says that the list ends, so reads are counted down, from a number that no run uses up; behind
// the last of them the list is one that can't be read.
fn seek<R: System>(
    rt: &R,
    s: Source,
    list: &mut OpenedBy<R>,
    part: &mut [u8],
    path: &mut [u8],
) -> Source
    ensures { FromList (length path.old) s.next s.left [] (unused s part.old) result (unused result part.new) path.new }
{
    let mut it = in_list(s, s.at, s.end, SourceState::Seeking, 0);
    for reads in (0..=u64::MAX).rev() {
        it = step(rt, it, reads, list, part, path);
        if !is_seeking(it) {
            break;
        }
    }
    it
}

fn is_seeking(s: Source) -> bool
    ensures { result ≡ eqb (number_of s.state) 0 }
{
    s.state == SourceState::Seeking
}

// The source with its list at other bytes.
fn in_list(s: Source, at: usize, end: usize, state: SourceState, length: usize) -> Source
    ensures { Stands s.next s.left true (number_of state) result × (result.at ≡ at) × (result.end ≡ end) × (result.length ≡ length) }
{
    Source {
        listed: true,
        list: s.list,
        at: at,
        end: end,
        next: s.next,
        left: s.left,
        state: state,
        length: length,
    }
}

// Takes a name from the bytes that are read, or reads on.
fn step<R: System>(
    rt: &R,
    s: Source,
    reads: u64,
    list: &mut OpenedBy<R>,
    part: &mut [u8],
    path: &mut [u8],
) -> Source
    ensures { StepFrom path.old s.length s.next s.left (unused s part.old) result (unused result part.new) path.new × (reads ≡ 0 → ¬ (number_of result.state ≡ 0)) }
{
    let got = take_name(first_bytes(part, s.end), s.at, path, s.length);
    if got.whole {
        return in_list(s, got.at, s.end, SourceState::Found, got.length);
    }
    if reads == 0 {
        return broken(rt, s, path);
    }
    read_on(rt, s, got.length, list, part, path)
}

// Reads more of the list, behind the first bytes of a name.
fn read_on<R: System>(
    rt: &R,
    s: Source,
    length: usize,
    list: &mut OpenedBy<R>,
    part: &mut [u8],
    path: &mut [u8],
) -> Source
    ensures { StepFrom path.old length s.next s.left [] result (unused result part.new) path.new }
{
    let got = list.read(part);
    after_read(rt, s, got, length, list, part, path)
}

// The source once the system has told how many bytes of the list it put into the buffer: none at its end, and an error where it can't be
// read. So many bytes of a name are held.
fn after_read<R: System>(
    rt: &R,
    s: Source,
    got: io::Result<usize>,
    held: usize,
    list: &mut OpenedBy<R>,
    part: &[u8],
    path: &mut [u8],
) -> Source
    ensures { AfterRead got s.next s.left held (length part.now) path.old result path.new }
{
    match got {
        Err(error) => {
            tell_unread(rt, b"--files", &error);
            close(list);
            broken(rt, s, path)
        }
        Ok(n) => {
            if n == 0 {
                close(list);
                return list_ended(rt, s, held, path);
            }
            in_list(s, 0, n.min(part.len()), SourceState::Seeking, held)
        }
    }
}

// The list's last name may lack the line feed.
fn list_ended<R: System>(rt: &R, s: Source, length: usize, path: &mut [u8]) -> Source
    ensures { Ended s.next s.left length path.old result path.new }
{
    if length == 0 {
        return argument(rt, s, path);
    }
    past_list(s, SourceState::Found, length)
}

// The next argument. One that is too long fills the buffer with its first bytes, and can't be opened.
fn argument<R: System>(rt: &R, s: Source, path: &mut [u8]) -> Source
    ensures { NextArgument s.next s.left result }
{
    if s.left == 0 {
        return past_list(s, SourceState::NoMore, 0);
    }
    let length = put_argument(rt, s.next, path).unwrap_or(path.len());
    Source {
        listed: false,
        list: s.list,
        at: 0,
        end: 0,
        next: more(s.next, 1),
        left: s.left - 1,
        state: SourceState::Found,
        length: length,
    }
}
