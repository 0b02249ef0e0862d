// Files that are open for reading, by their names.
ghost use Rattle.std.specs.Prelude.{◌≡◌, ◌↔◌, [], ◌∷◌, IsTrue};

use crate::system::System;
use std::io::Read;
use std::{io, str};

// A file that is read. Of one that is closed each read fails.
#[derive(Drop)]
pub enum Opened<I, F> {
    // standard input
    Input(I),
    // the file of a name
    Named(F),
    Closed,
    // standard input, which was closed
    InputClosed,
}

// What a run opens.
pub type OpenedBy<R> = Opened<<R as System>::Input, <R as System>::File>;

impl<I: Read, F: Read> Read for Opened<I, F> {
    fn read(&mut self, buf: &mut [u8]) -> io::Result<usize> {
        match self {
            Opened::Input(input) => input.read(buf),
            Opened::Named(file) => file.read(buf),
            Opened::Closed => Err(io::Error::from_raw_os_error(NOT_OPEN)),
            Opened::InputClosed => Err(io::Error::from_raw_os_error(NOT_OPEN)),
        }
    }
}

// The operating system's numbers of failures (EBADF, EINVAL, ENAMETOOLONG and EILSEQ of Linux).
const NOT_OPEN: i32 = 9;

pub const INVALID: i32 = 22;

pub const TOO_LONG: i32 = 36;

const NO_TEXT: i32 = 84;

// A path has fewer bytes.
const PATH_ROOM: usize = 4096;

// Whether a name is that of standard input.
pub fn is_input(name: &[u8]) -> bool
    ensures { IsTrue result ↔ (name.now ≡ 45 ∷ []) }
{
    name == b"-".as_slice()
}

// The file of a name, `-` being standard input.
pub fn open<R: System>(rt: &R, name: &[u8]) -> io::Result<OpenedBy<R>> {
    if is_input(name) {
        return Ok(Opened::Input(rt.input()));
    }
    open_named(rt, name)
}

// The file of a name. It fails where the operating system does, and where the name is no UTF-8: the library opens files by text alone.
pub fn open_named<R: System>(rt: &R, name: &[u8]) -> io::Result<OpenedBy<R>> {
    if name.len() >= PATH_ROOM {
        return Err(io::Error::from_raw_os_error(TOO_LONG));
    }
    if name.contains(&0) {
        return Err(io::Error::from_raw_os_error(INVALID));
    }
    match str::from_utf8(name) {
        Ok(path) => Ok(Opened::Named(rt.open(path)?)),
        Err(_) => Err(io::Error::from_raw_os_error(NO_TEXT)),
    }
}

// Closes the file. That standard input was closed is known then.
pub fn close<I: Drop, F: Drop>(file: &mut Opened<I, F>) {
    *file = match file {
        Opened::Input(_) => Opened::InputClosed,
        Opened::InputClosed => Opened::InputClosed,
        _ => Opened::Closed,
    };
}

// What `-` stands for beside a list of names: standard input, unless it was closed behind the list.
pub fn input_beside<R: System>(rt: &R, list: &OpenedBy<R>) -> OpenedBy<R> {
    match list {
        Opened::InputClosed => Opened::InputClosed,
        _ => Opened::Input(rt.input()),
    }
}
