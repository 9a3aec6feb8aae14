// The day and time beside a quarter's number, where the operator's base day is known (specs/Note). Any base day is taken.
ghost use Rattle.std.specs.Prelude.{◌≡◌, ◌++◌, ◌+◌, ◌≤◌, Some};
ghost use Rattle.arrayvec.specs.ArrayVec.{array_vec_len};
ghost use Rattle.model.specs.Values.{word_values};
ghost use Rattle.calendar.specs.Calendar.{last_year};
ghost use Rattle.calendar.specs.Note.{shown_base, note_after, moment_note, note_bytes};

use crate::Date;
use crate::moment::put_moment;
use arrayvec::ArrayVec;
use text::put::{put_byte, put_text};

// Room for a note.
pub const NOTE_BYTES: usize = 19;

// The base day, unless its year has more than four digits.
#[tactic(auto, unfolding(crate::specs::Note::shown_base))]
pub fn shown_base(base: Option<Date>) -> Option<Date>
    ensures { result ≡ shown_base base }
{
    base.filter(|d| d.year <= 9999)
}

// A quarter's day and time, from a base day that can be shown.
fn put_note_from<const N: usize>(line: &mut ArrayVec<u8, N>, base: Date, quarter: usize)
    requires room { array_vec_len line.old + note_bytes ≤ N }
    requires year { base.year ≤ last_year }
    requires quarter { quarter ≤ word_values }
    ensures items { line.new.items ≡ line.old.items ++ note_after (Some base) quarter }
    ensures len { array_vec_len line.new ≡ array_vec_len line.old + note_bytes }
{
    put_text(line, b" (");
    put_moment(line, base, quarter);
    put_byte(line, b')');
}

// The day and time at which a quarter starts, to stand behind its number; nothing where no base day is known.
#[tactic(auto, using(crate::proofs::NoteLaws::shown_year))]
pub fn put_note<const N: usize>(line: &mut ArrayVec<u8, N>, base: Option<Date>, quarter: u16)
    requires { array_vec_len line.old + note_bytes ≤ N }
    ensures items { line.new.items ≡ line.old.items ++ moment_note base quarter }
    ensures len { array_vec_len line.new ≤ array_vec_len line.old + note_bytes }
{
    if let Some(d) = shown_base(base) {
        put_note_from(line, d, usize::from(quarter));
    }
}

// The same as a line of its own.
pub fn moment_text(base: Option<Date>, quarter: u16) -> ArrayVec<u8, NOTE_BYTES>
    ensures { result.items ≡ moment_note base quarter }
{
    let mut note = ArrayVec::new();
    put_note(&mut note, base, quarter);
    note
}
