// What a run reaches outside of the program.
ghost use Rattle.std.specs.Prelude.{◌≤◌, length, IfOk};

use crate::opened::{INVALID, TOO_LONG};
use session::Errors;
use std::env::{Env, FillError};
use std::fs::{File, Files, OpenOptions};
use std::io;
use std::io::{Read, Stdin};
use std::time::{Clock, CpuClock};

// Beside what is printed, a run reads files and arguments, and the time.
pub trait System: Print + Errors + Clock + CpuClock + Alloc {
    type Input: Read + Drop;

    type File: Read + Drop;

    // standard input
    fn input(&self) -> Self::Input;

    // The file of a path, for reading.
    fn open(&self, path: &str) -> io::Result<Self::File>;

    // Puts argument i at the start of the buffer, and answers its length; 0 is the program's own name. One that is too long fills the buffer
    // with its first bytes, and fails, as one that is not there does.
    fn argument(&self, i: usize, buf: &mut [u8]) -> Result<usize, FillError>
        ensures bound { IfOk result (λ n. n ≤ length buf.new) };
}

impl System for HostRuntime {
    type Input = Stdin;

    type File = File;

    fn input(&self) -> Stdin {
        self.stdin()
    }

    fn open(&self, path: &str) -> io::Result<File> {
        let mut how = OpenOptions::new();
        how.read(true);
        self.open_file(&how, path)
    }

    fn argument(&self, i: usize, buf: &mut [u8]) -> Result<usize, FillError> {
        self.arg(i, buf)
    }
}

// Puts argument i into the buffer, and answers its length. One that is too long fails as a name that is too long does.
pub fn put_argument(rt: &impl System, i: usize, buf: &mut [u8]) -> io::Result<usize>
    ensures { IfOk result (λ n. n ≤ length buf.new) }
{
    match rt.argument(i, buf) {
        Ok(length) => Ok(length),
        Err(FillError::TooLong) => Err(io::Error::from_raw_os_error(TOO_LONG)),
        Err(FillError::NotPresent) => Err(io::Error::from_raw_os_error(INVALID)),
    }
}
