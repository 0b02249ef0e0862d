// What can't be read is told on standard error.
use std::io;
use std::io::IsTerminal;

// Standard error, for bytes that need not be text.
pub trait Errors {
    // Writes the bytes. What can't be written is passed over.
    fn tell(&self, bytes: &[u8]);

    // Whether a terminal shows them.
    fn is_shown(&self) -> bool;
}

impl Errors for HostRuntime {
    fn tell(&self, bytes: &[u8]) {
        let _ = self.stderr().write_all(bytes);
    }

    fn is_shown(&self) -> bool {
        self.stderr().is_terminal()
    }
}

// A name, and the system's words for what failed.
pub fn tell_unread(rt: &(impl Errors + Alloc), name: &[u8], error: &io::Error) {
    rt.tell(name);
    rt.tell(b": ");
    match error.to_string(rt.alloc()) {
        Ok(text) => rt.tell(without_number(text.as_str()).as_bytes()),
        Err(_) => rt.tell(b"out of memory"),
    }
    rt.tell(b"\n");
}

// An `io::Error` prints the system's words, and their number behind them.
fn without_number(text: &str) -> &str {
    match text.split_once(" (os error ") {
        Some((words, _)) => words,
        None => text,
    }
}
