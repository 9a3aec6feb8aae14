// The slip program (document 01, "Marked cases"): an index of 2,048 cells, a slip a line on standard input, an answer a line on standard
// output. What a line does is `crate::answer`; how bytes become lines is `console::lines::next_line`. Where an answer can't be written, no
// further slip is applied.
use crate::printing::Line;
use crate::{LONGEST, answer};
use console::lines::{Longer, Unread, fresh, next_line};
use console::output::{Unwritten, answers, warn, warn_reason};
use console::status::Ending;
use model::MAX_GRANTS;
use pool::layout::MAX_WORDS;

// So many bytes of a line are held: one more than the longest that can be a slip, so that a longer one is seen to be longer.
const HELD: usize = LONGEST + 1;

// Answers one line.
fn answer_line(
    rt: HostRuntime,
    pool: &mut [u16],
    lent: &mut [u16],
    line: &[u8],
    out: &mut Line,
) -> Result<(), Unwritten> {
    answer(pool, lent, line, out);
    answers(rt).put(out.as_slice())
}

// How a program ends whose standard input gives no line; says so where it could not be read.
pub fn warn_input(rt: HostRuntime, unread: Unread) -> Ending {
    match unread {
        Unread::Failed(failure) => {
            warn(rt, b"grants: standard input can't be read: ");
            warn_reason(rt, failure);
            Ending::Failed
        }
        Unread::Long => Ending::Done,
    }
}

// Answers line after line, until the input ends or can't be read, or an answer can't be written. A proved loop has to end, and nothing says
// that the input does: so it counts its turns, up to a number that no run reaches.
fn answer_lines(
    rt: HostRuntime,
    pool: &mut [u16],
    lent: &mut [u16],
    input: &mut [u8],
    line: &mut [u8],
) -> Ending {
    let mut out = Line::new();
    let mut cursor = fresh();
    for _ in 0..u64::MAX {
        let pulled = next_line(&mut rt.stdin(), input, cursor, line, Longer::Dropped);
        let n = match pulled.line {
            Ok(Some(n)) => n,
            Ok(None) => break,
            Err(unread) => return warn_input(rt, unread),
        };
        if answer_line(rt, pool, lent, &line[..n], &mut out).is_err() {
            return Ending::Failed;
        }
        cursor = pulled.cursor;
    }
    Ending::Done
}

pub fn run(rt: HostRuntime) -> Ending {
    let mut pool = [0u16; MAX_WORDS];
    let _ = index::start::start(&mut pool);
    let mut lent = [0u16; MAX_GRANTS];
    let mut input = [0u8; 4096];
    let mut line = [0u8; HELD];
    answer_lines(rt, &mut pool, &mut lent, &mut input, &mut line)
}
