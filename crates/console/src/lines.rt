// Lines of an open file, one at a time, however the bytes come. The caller lends the buffer that is read into, and the line.
// Of a line that is longer than the lent one the first bytes are held, and the others are dropped; or the line is given up, if the caller
// says so.
ghost use Rattle.std.specs.Prelude.{◌≡◌, ◌≤◌, length};
ghost use Rattle.console.specs.Taken.{Taking, Takes, Keeps};
ghost use Rattle.console.specs.Pulled.{HeldIn, Safe, LastLine, GoesOn, Pulls};

use crate::errors::Failure;
use std::io::Read;

// The bytes of the buffer that were read and not yet taken: from `at` up to `end`.
#[derive(Clone, Copy)]
pub struct Cursor {
    pub at: usize,
    pub end: usize,
}

// Why there is no line: the input could not be read; or the line is longer than the lent one, and was given up.
#[derive(Clone, Copy)]
pub enum Unread {
    Failed(Failure),
    Long,
}

// How many bytes of the lent line hold the line, without its newline, None where the input has ended; and whether its newline was met: the
// last line may have none. That is a flag, as a line is held with and without.
#[derive(Clone, Copy)]
pub struct Pulled {
    pub cursor: Cursor,
    pub line: Result<Option<usize>, Unread>,
    pub ended: bool,
}

// What becomes of a line that is longer than the lent one: it is read to its end, or given up.
#[derive(Clone, Copy, PartialEq, Eq)]
pub enum Longer {
    Dropped,
    GivenUp,
}

// What was taken from the buffer: the place after it, the bytes that the line now holds, and whether its newline was met: a flag, as more bytes may be
// held without it.
#[derive(Clone, Copy)]
pub struct Taken {
    pub at: usize,
    pub held: usize,
    pub whole: bool,
}

// Nothing is read yet.
pub fn fresh() -> Cursor
    ensures { (result.at ≡ 0) × (result.end ≡ 0) }
{
    Cursor { at: 0, end: 0 }
}

// One byte more of the line; past what the line has room for it is dropped.
fn hold(line: &mut [u8], held: usize, byte: u8) -> usize
    requires { held ≤ length line.old }
    ensures { Keeps line.old held byte line.new result }
{
    if held == line.len() {
        return held;
    }
    line[held] = byte;
    held + 1
}

// Takes the bytes up to the newline, or all that were read, behind those that the line holds.
fn take_line(input: &[u8], at: usize, end: usize, line: &mut [u8], held: usize) -> Taken
    requires { Taking input.now at end line.old held }
    ensures { Takes input.now at end line.old held line.new result }
{
    let mut so_far = held;
    for i in at..end {
        let byte = input[i];
        if byte == b'\n' {
            return Taken {
                at: i + 1,
                held: so_far,
                whole: true,
            };
        }
        so_far = hold(line, so_far, byte);
    }
    Taken {
        at: end,
        held: so_far,
        whole: false,
    }
}

// What the line holds where the input ends: a last line without a newline is a line.
fn last_line(held: usize) -> Option<usize>
    ensures { LastLine held result }
{
    if held == 0 { None } else { Some(held) }
}

// Reads until the line's newline, the end of the input, or a read that fails. A proved loop has to end, and nothing says that the input
// does: so it counts its turns, up to a number that no run reaches.
fn read_on<R: Read>(
    from: &mut R,
    input: &mut [u8],
    line: &mut [u8],
    held: usize,
    longer: Longer,
) -> Pulled
    requires { held ≤ length line.old }
    ensures { Safe input.new line.new result × GoesOn line.old held line.new result.line }
{
    let mut so_far = held;
    for _ in 0..u64::MAX {
        let end = match from.read(input) {
            Ok(end) => end,
            Err(error) => {
                return Pulled {
                    cursor: fresh(),
                    line: Err(Unread::Failed(Failure::from(error))),
                    ended: false,
                };
            }
        };
        if end == 0 {
            break;
        }
        let taken = take_line(input, 0, end, line, so_far);
        if taken.whole {
            return Pulled {
                cursor: Cursor { at: taken.at, end },
                line: Ok(Some(taken.held)),
                ended: true,
            };
        }
        so_far = taken.held;
        if longer == Longer::GivenUp && so_far == line.len() {
            return Pulled {
                cursor: fresh(),
                line: Err(Unread::Long),
                ended: false,
            };
        }
    }
    Pulled {
        cursor: fresh(),
        line: Ok(last_line(so_far)),
        ended: false,
    }
}

// The next line, from what is left in the buffer on. A cursor that does not lie in the buffer stands for an empty one.
pub fn next_line<R: Read>(
    from: &mut R,
    input: &mut [u8],
    cursor: Cursor,
    line: &mut [u8],
    longer: Longer,
) -> Pulled
    ensures { Pulls input.old line.old cursor input.new line.new result }
{
    let at = cursor.at;
    let end = cursor.end;
    if end < at || input.len() < end {
        return read_on(from, input, line, 0, longer);
    }
    let taken = take_line(input, at, end, line, 0);
    if taken.whole {
        return Pulled {
            cursor: Cursor { at: taken.at, end },
            line: Ok(Some(taken.held)),
            ended: true,
        };
    }
    read_on(from, input, line, taken.held, longer)
}
