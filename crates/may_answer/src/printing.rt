// The answer to `may` (specs/MayText), put piece by piece at the end of a line that has room for it. Any question and any decision is taken.
ghost use Rattle.std.specs.Prelude.{◌≡◌, ◌++◌, ◌+◌, ◌≤◌, length};
ghost use Rattle.arrayvec.specs.ArrayVec.{array_vec_len};
ghost use Rattle.may_answer.specs.MayText.{question_text, deciding_text, verdict_text, may_text};

use arrayvec::ArrayVec;
use calendar::Date;
use calendar::note::put_note;
use model::{Decision, Fault, Grant};
use panel::rows::{put_heads, put_row, put_times};
use text::put::{put_byte, put_numbered, put_text};

// Room for the longest answer: 102 bytes of question, 229 of decision.
pub const ANSWER_BYTES: usize = 331;

fn put_question<const N: usize>(
    line: &mut ArrayVec<u8, N>,
    staff: u16,
    door: u16,
    quarter: u16,
    base: Option<Date>,
)
    requires { array_vec_len line.old + 102 ≤ N }
    ensures items { line.new.items ≡ line.old.items ++ question_text staff door quarter base }
    ensures len { array_vec_len line.new ≤ array_vec_len line.old + 102 }
{
    put_numbered(line, b"staff ", usize::from(staff));
    put_numbered(line, b", door ", usize::from(door));
    put_numbered(line, b", quarter ", usize::from(quarter));
    put_note(line, base, quarter);
}

// The grant that decides, behind the word for its kind.
fn put_deciding<const N: usize>(
    line: &mut ArrayVec<u8, N>,
    word: &[u8],
    g: Grant,
    base: Option<Date>,
)
    requires { array_vec_len line.old + length word.now + 210 ≤ N }
    ensures items { line.new.items ≡ line.old.items ++ deciding_text word.now g base }
    ensures len { array_vec_len line.new ≤ array_vec_len line.old + length word.now + 210 }
{
    put_numbered(line, word, usize::from(g.number));
    put_byte(line, b'\n');
    put_heads(line);
    put_row(line, g);
    put_times(line, g, base);
    put_byte(line, b'\n');
}

fn put_decision<const N: usize>(
    line: &mut ArrayVec<u8, N>,
    decided: Result<Decision, Fault>,
    base: Option<Date>,
)
    requires { array_vec_len line.old + 229 ≤ N }
    ensures items { line.new.items ≡ line.old.items ++ verdict_text decided base }
    ensures len { array_vec_len line.new ≤ array_vec_len line.old + 229 }
{
    match decided {
        Ok(Decision::Opens(g)) => put_deciding(line, b": OPENS, by grant ", g, base),
        Ok(Decision::Barred(g)) => put_deciding(line, b": BARRED, by grant ", g, base),
        Ok(Decision::None) => put_text(line, b": NO GRANT, do not open\n\n"),
        Err(_) => put_byte(line, b'\n'),
    }
}

// The whole answer, where decide answered this of a staff number, a door and a quarter.
pub fn may_text(
    staff: u16,
    door: u16,
    quarter: u16,
    base: Option<Date>,
    decided: Result<Decision, Fault>,
) -> ArrayVec<u8, ANSWER_BYTES>
    ensures { result.items ≡ may_text staff door quarter base decided }
{
    let mut answer = ArrayVec::new();
    put_question(&mut answer, staff, door, quarter, base);
    put_decision(&mut answer, decided, base);
    answer
}
