// A cell on the way up as a line of a table (specs/PathRow). Any cell, level and grant is taken.
ghost use Rattle.std.specs.Prelude.{◌≡◌};
ghost use Rattle.grant_path.specs.PathRow.{path_row};

use arrayvec::ArrayVec;
use model::Grant;
use panel::rows::{ROW_BYTES, put_row};
use text::columns::put_columns;

// The cell, its level, and the grant in it as in the table of all grants.
pub fn path_row(cell: u16, level: u16, g: Grant) -> ArrayVec<u8, ROW_BYTES>
    ensures { result.items ≡ path_row cell level g }
{
    let values = [cell, level];
    let mut row = ArrayVec::new();
    put_columns(&mut row, &values);
    put_row(&mut row, g);
    row
}
