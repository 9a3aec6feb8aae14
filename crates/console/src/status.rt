// How a program ended, for whoever started it. The program alone gives no status: it writes one digit to file descriptor 3, where
// its last argument asks for that: bin/grants does, and makes a status of it.
use crate::arguments::{count, text_at};
use crate::output::Unwritten;
use std::fs::OpenOptions;
use std::io;
use std::io::Write;

// Done, sound or equal; the answer is no: refused, differs, not sound; it could not be done: arguments, files, output.
#[derive(Clone, Copy)]
pub enum Ending {
    Done,
    No,
    Failed,
}

// Where the digit goes: the system's name for file descriptor 3.
const STATUS: &str = "/dev/fd/3";

// Whether the last argument asks for the digit.
pub fn is_asked(rt: HostRuntime) -> bool {
    let count = count(rt);
    if count < 2 {
        return false;
    }
    let mut last = [0u8; 16];
    text_at(rt, count - 1, &mut last) == b"status-to-3".as_slice()
}

// The ending of an answer that says so: failed, where the answer was not written whole.
pub fn answered(said: Result<(), Unwritten>, ending: Ending) -> Ending {
    match said {
        Ok(()) => ending,
        Err(Unwritten) => Ending::Failed,
    }
}

// Opened for reading too, so that the open waits for nobody, and to write behind what is there.
fn write_digit(rt: HostRuntime, digit: &[u8]) -> io::Result<()> {
    let mut to = OpenOptions::new()
        .read(true)
        .append(true)
        .open(&rt, STATUS)?;
    to.write_all(digit)
}

fn tell_digit(rt: HostRuntime, digit: &[u8]) {
    if is_asked(rt) {
        let _ = write_digit(rt, digit);
    }
}

pub fn tell(rt: HostRuntime, ending: Ending) {
    match ending {
        Ending::Done => tell_digit(rt, b"0"),
        Ending::No => tell_digit(rt, b"1"),
        Ending::Failed => tell_digit(rt, b"2"),
    }
}
