// An opening as a line of text (specs/OpeningRow). Any opening is taken, and nothing is refused; it knows nothing of reading and writing.
#![tactic(auto)]

ghost use Rattle.std.specs.Prelude.{◌≡◌, ◌≤◌};
ghost use Rattle.arrayvec.specs.ArrayVec.{array_vec_len};
ghost use Rattle.opening_rows.specs.OpeningRow.{entry_text, opening_row};

use arrayvec::ArrayVec;
use calendar::Date;
use calendar::note::put_note;
use openings::Opening;
use text::put::{put_byte, put_numbered};

// Room for the longest row: 104 bytes up to the staff number, 29 from there.
pub const ROW_BYTES: usize = 133;

// The row up to the staff number.
fn entry_text(base: Option<Date>, number: usize, opening: Opening) -> ArrayVec<u8, ROW_BYTES>
    ensures items { result.items ≡ entry_text base number opening }
    ensures len { array_vec_len result ≤ 104 }
{
    let mut row = ArrayVec::new();
    put_numbered(&mut row, b"  entry ", number);
    put_numbered(&mut row, b": door ", usize::from(opening.door));
    put_numbered(&mut row, b", quarter ", usize::from(opening.quarter));
    put_note(&mut row, base, opening.quarter);
    row
}

// The entry of a number, as a line.
pub fn opening_row(base: Option<Date>, number: usize, opening: Opening) -> ArrayVec<u8, ROW_BYTES>
    ensures { result.items ≡ opening_row base number opening }
{
    let mut row = entry_text(base, number, opening);
    put_numbered(&mut row, b", staff ", opening.staff as usize);
    put_byte(&mut row, b'\n');
    row
}
