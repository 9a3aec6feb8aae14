// A grant as a line of a table, and the days and times beside it (specs/Rows), put at the end of a line of fixed capacity that has room for them.
// Any grant and any base day is taken.
ghost use Rattle.std.specs.Prelude.{◌≡◌, ◌++◌, ◌+◌, ◌≤◌, Some};
ghost use Rattle.arrayvec.specs.ArrayVec.{array_vec_len};
ghost use Rattle.model.specs.Values.{word_values};
ghost use Rattle.calendar.specs.Calendar.{last_year};
ghost use Rattle.calendar.specs.Moment.{moment_bytes};
ghost use Rattle.calendar.specs.Note.{shown_base};
ghost use Rattle.panel.specs.Rows.{kind_text, precedence_text, moment_column, times_from};
ghost use Rattle.panel.specs.Rows.{grant_heads, grant_row, touching_row, times_row};

use arrayvec::ArrayVec;
use calendar::Date;
use calendar::moment::put_moment;
use calendar::note::shown_base;
use model::{Grant, Kind};
use precedence::Precedence;
use text::columns::put_columns;
use text::put::{put_byte, put_text};

// Room for the longest row.
pub const ROW_BYTES: usize = 192;

fn put_kind<const N: usize>(line: &mut ArrayVec<u8, N>, kind: Kind)
    requires { array_vec_len line.old + 5 ≤ N }
    ensures items { line.new.items ≡ line.old.items ++ kind_text kind }
    ensures len { array_vec_len line.new ≤ array_vec_len line.old + 5 }
{
    match kind {
        Kind::Bars => put_text(line, b"bars"),
        Kind::Opens => put_text(line, b"opens"),
    }
}

fn put_precedence<const N: usize>(line: &mut ArrayVec<u8, N>, precedence: Precedence)
    requires { array_vec_len line.old + 12 ≤ N }
    ensures items { line.new.items ≡ line.old.items ++ precedence_text precedence }
    ensures len { array_vec_len line.new ≤ array_vec_len line.old + 12 }
{
    match precedence {
        Precedence::Whole => (),
        Precedence::Partial => put_text(line, b", in part"),
        Precedence::None => put_text(line, b", OVERRIDDEN"),
    }
}

// A quarter's day and time in a column of its own.
#[tactic(auto, using(calendar::proofs::NoteLaws::shown_year))]
fn put_moment_column<const N: usize>(line: &mut ArrayVec<u8, N>, base: Option<Date>, quarter: usize)
    requires room { array_vec_len line.old + moment_bytes ≤ N }
    requires quarter { quarter ≤ word_values }
    ensures items { line.new.items ≡ line.old.items ++ moment_column (shown_base base) quarter }
    ensures len { array_vec_len line.new ≡ array_vec_len line.old + moment_bytes }
{
    match shown_base(base) {
        None => put_text(line, b"-               "),
        Some(d) => put_moment(line, d, quarter),
    }
}

// The heads of the table of all grants.
pub fn put_heads<const N: usize>(line: &mut ArrayVec<u8, N>)
    requires { array_vec_len line.old + 71 ≤ N }
    ensures items { line.new.items ≡ line.old.items ++ grant_heads }
    ensures len { array_vec_len line.new ≡ array_vec_len line.old + 71 }
{
    put_text(
        line,
        b"  number    rank   staff      to   doors      to quarter   until  does\n",
    );
}

// The same as a line of its own.
pub fn heads_row() -> ArrayVec<u8, ROW_BYTES>
    ensures { result.items ≡ grant_heads }
{
    let mut row = ArrayVec::new();
    put_heads(&mut row);
    row
}

// A grant in that table.
pub fn put_row<const N: usize>(line: &mut ArrayVec<u8, N>, g: Grant)
    requires { array_vec_len line.old + 72 ≤ N }
    ensures items { line.new.items ≡ line.old.items ++ grant_row g }
    ensures len { array_vec_len line.new ≤ array_vec_len line.old + 72 }
{
    let b = g.bounds;
    let values = [
        g.number,
        u16::from(g.rank),
        b.staff_from,
        b.staff_to,
        b.door_from,
        b.door_to,
        b.quarter_from,
        b.quarter_to,
    ];
    put_columns(line, &values);
    put_text(line, b"  ");
    put_kind(line, g.kind);
    put_byte(line, b'\n');
}

// The same as a line of its own.
pub fn grant_row(g: Grant) -> ArrayVec<u8, ROW_BYTES>
    ensures { result.items ≡ grant_row g }
{
    let mut row = ArrayVec::new();
    put_row(&mut row, g);
    row
}

// A grant in the table of those that touch a door and a quarter: who may open it, until when, and how far that stands.
pub fn touching_row(g: Grant, precedence: Precedence, base: Option<Date>) -> ArrayVec<u8, ROW_BYTES>
    ensures { result.items ≡ touching_row g precedence base }
{
    let b = g.bounds;
    let values = [
        g.number,
        u16::from(g.rank),
        b.staff_from,
        b.staff_to,
        b.quarter_to,
    ];
    let mut row = ArrayVec::new();
    put_columns(&mut row, &values);
    put_text(&mut row, b"  ");
    put_moment_column(&mut row, base, usize::from(b.quarter_to));
    put_text(&mut row, b"  ");
    put_kind(&mut row, g.kind);
    put_precedence(&mut row, precedence);
    put_byte(&mut row, b'\n');
    row
}

// When a grant holds, from a base day that can be shown.
fn put_times_from<const N: usize>(line: &mut ArrayVec<u8, N>, base: Date, g: Grant)
    requires room { array_vec_len line.old + 45 ≤ N }
    requires year { base.year ≤ last_year }
    ensures items { line.new.items ≡ line.old.items ++ times_from (Some base) g }
    ensures len { array_vec_len line.new ≡ array_vec_len line.old + 45 }
{
    let b = g.bounds;
    put_text(line, b"from ");
    put_moment(line, base, usize::from(b.quarter_from));
    put_text(line, b" until ");
    put_moment(line, base, usize::from(b.quarter_to));
    put_byte(line, b'\n');
}

// From when until when a grant holds; nothing where no base day is known.
#[tactic(auto, using(calendar::proofs::NoteLaws::shown_year))]
pub fn put_times<const N: usize>(line: &mut ArrayVec<u8, N>, g: Grant, base: Option<Date>)
    requires { array_vec_len line.old + 45 ≤ N }
    ensures items { line.new.items ≡ line.old.items ++ times_row g base }
    ensures len { array_vec_len line.new ≤ array_vec_len line.old + 45 }
{
    if let Some(d) = shown_base(base) {
        put_times_from(line, d, g);
    }
}
