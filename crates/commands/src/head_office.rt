// Head office's grants: a journal of slips, replayed into a fresh index. An error is how the command ends, after what was said of it.
use crate::common::warn_file;
use crate::messages::Refusal;
use atomic_file::path::open_read;
use console::arguments::name_at;
use console::lines::{Cursor, Longer, Unread, next_line};
use console::names::warn_unread;
use console::output::warnings;
use console::status::Ending;
use model::Fault;
use slip_session::LONGEST;
use slip_session::journal::{NotReplayed, replay_line};
use std::fmt;
use std::fs::File;

// One byte more than the longest slip, so that a longer line is seen to be longer.
const HELD: usize = LONGEST + 1;

// Why a journal is not replayed past a line.
#[derive(Clone, Copy)]
enum Halt {
    Refused(Fault),
    Question,
    NoSlip,
    CarriageReturn,
    Unended,
    Long,
}

impl fmt::Display for Halt {
    fn fmt<W: fmt::Write>(&self, f: &mut fmt::Formatter<W>) -> fmt::Result {
        match self {
            Halt::Refused(fault) => write!(f, "{}", Refusal(*fault)),
            Halt::Question => f.write_str("a question, not a grant or a revoke: take the line out"),
            Halt::NoSlip => f.write_str(
                "no slip: write G and nine numbers, or R and one, with one blank between them",
            ),
            Halt::CarriageReturn => f.write_str(
                "the line ends in CR LF, as Windows editors end lines: save the journal with LF alone",
            ),
            Halt::Unended => f.write_str(
                "the journal breaks off in this line: if it is whole, end it with a newline",
            ),
            Halt::Long => f.write_str(
                "the line is longer than any slip, 4096 bytes: is this a journal?",
            ),
        }
    }
}

// Says where in a journal something is wrong, and what.
fn halted(rt: HostRuntime, path: &[u8], number: u64, halt: Halt) -> Ending {
    warn_file(rt, path, b", line ");
    let _ = write!(warnings(rt), "{number}: {halt}\n");
    Ending::No
}

// Makes the call of a line.
fn replay_slip(pool: &mut [u16], line: &[u8]) -> Result<(), Halt> {
    match replay_line(pool, line) {
        Ok(Ok(())) => Ok(()),
        Ok(Err(fault)) => Err(Halt::Refused(fault)),
        Err(NotReplayed::Question) => Err(Halt::Question),
        Err(NotReplayed::NotASlip) if line.ends_with(b"\r") => Err(Halt::CarriageReturn),
        Err(NotReplayed::NotASlip) => Err(Halt::NoSlip),
    }
}

// Says why there is no line: it could not be read, or is longer than any slip.
fn unread_line(rt: HostRuntime, path: &[u8], number: u64, unread: Unread) -> Ending {
    match unread {
        Unread::Failed(failure) => {
            warn_unread(rt, path, failure);
            Ending::Failed
        }
        Unread::Long => halted(rt, path, number, Halt::Long),
    }
}

// Replays the lines of an open journal, first those that were read before, up to the first that is refused. A line that the journal breaks
// off in may be the beginning of another slip. The number of a line is what a proved loop ends by.
fn replay_lines(
    rt: HostRuntime,
    file: &mut File,
    path: &[u8],
    pool: &mut [u16],
    input: &mut [u8],
    read: Cursor,
    line: &mut [u8],
) -> Result<(), Ending> {
    let mut cursor = read;
    for number in 1..u64::MAX {
        let pulled = next_line(file, input, cursor, line, Longer::GivenUp);
        let n = match pulled.line {
            Ok(Some(n)) => n,
            Ok(None) => return Ok(()),
            Err(unread) => return Err(unread_line(rt, path, number, unread)),
        };
        if !pulled.ended {
            return Err(halted(rt, path, number, Halt::Unended));
        }
        if let Err(halt) = replay_slip(pool, &line[..n]) {
            return Err(halted(rt, path, number, halt));
        }
        cursor = pulled.cursor;
    }
    Err(Ending::Failed)
}

// Opens a journal, or says why it can't be.
pub fn open(rt: HostRuntime, path: &[u8]) -> Result<File, Ending> {
    match open_read(rt, path) {
        Ok(file) => Ok(file),
        Err(failure) => {
            warn_unread(rt, path, failure);
            Err(Ending::Failed)
        }
    }
}

// Starts the pool anew, replays an open journal, of which so many bytes were read before, and closes it.
pub fn replay_on(
    rt: HostRuntime,
    mut file: File,
    path: &[u8],
    pool: &mut [u16],
    input: &mut [u8],
    read: usize,
) -> Result<(), Ending> {
    let _ = index::start::start(pool);
    let mut line = [0u8; HELD];
    let before = Cursor { at: 0, end: read };
    replay_lines(rt, &mut file, path, pool, input, before, &mut line)
}

// The same for a journal of which nothing was read.
pub fn replay(rt: HostRuntime, file: File, path: &[u8], pool: &mut [u16]) -> Result<(), Ending> {
    let mut input = [0u8; 4096];
    replay_on(rt, file, path, pool, &mut input, 0)
}

// The same for the journal that the second argument names.
pub fn replay_named(rt: HostRuntime, pool: &mut [u16]) -> Result<(), Ending> {
    let mut lent = [0u8; 4096];
    let path = name_at(rt, b"JOURNAL", 2, &mut lent).ok_or(Ending::Failed)?;
    let file = open(rt, path)?;
    replay(rt, file, path, pool)
}
