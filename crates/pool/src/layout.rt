// Where each word of a pool lies (specs/Layout and Capacity say the same): the one file of code that names a place, but for a field's in its cell,
// which is the field's number.
ghost use Rattle.std.specs.Prelude.{◌≡◌, ◌+◌, ◌<◌, ◌≤◌, set};
ghost use Rattle.model.specs.Limits.{max_grants};
ghost use Rattle.pool.specs.Layout.{place, offset, cell_words, field_of};
ghost use Rattle.pool.specs.Capacity.{pool_length, InPool, length_capacity, pool_capacity};

use crate::Field;
use model::MAX_GRANTS;

pub const CAPACITY: usize = 0;

pub const ROOT: usize = 1;

pub const FREE: usize = 2;

const HEADER_WORDS: usize = 3;

pub const CELL_WORDS: usize = 11;

pub const MAX_CAPACITY: usize = MAX_GRANTS;

// The words of a pool of so many cells.
pub const MAX_WORDS: usize = HEADER_WORDS + CELL_WORDS * MAX_CAPACITY;

// A field's place among the words of its cell.
fn offset_of(f: Field) -> usize
    ensures { (result ≡ offset f) × (result < cell_words) }
{
    f as usize
}

// The place of a field of a cell; cells are numbered from 1.
pub fn place_of(cell: usize, f: Field) -> usize
    requires { (0 < cell) × (cell ≤ max_grants) }
    ensures { (result ≡ place cell f) × (result < pool_length cell) }
{
    HEADER_WORDS + ((cell - 1) * CELL_WORDS + offset_of(f))
}

// What stands in a field of a cell.
pub fn field(pool: &[u16], cell: usize, f: Field) -> u16
    requires { InPool pool.now cell }
    ensures { result ≡ field_of pool.now cell f }
{
    pool[place_of(cell, f)]
}

// A store into a field of a cell.
pub fn set_field(pool: &mut [u16], cell: usize, f: Field, value: u16)
    requires { InPool pool.old cell }
    ensures { pool.new ≡ set pool.old (place cell f) value }
{
    let at = place_of(cell, f);
    pool[at] = value;
}

// Document 01's C, from the pool's length alone; None where no pool has that length.
pub fn length_capacity(pool: &[u16]) -> Option<usize>
    ensures { result ≡ length_capacity pool.now }
{
    let n = pool.len();
    if n < HEADER_WORDS + CELL_WORDS {
        return None;
    }
    let cells = (n - HEADER_WORDS) / CELL_WORDS;
    if MAX_CAPACITY < cells {
        return None;
    }
    if n != HEADER_WORDS + CELL_WORDS * cells {
        return None;
    }
    Some(cells)
}

// Document 01's C; None where the length is not a pool's or the first word is not its C.
pub fn capacity(pool: &[u16]) -> Option<usize>
    ensures { result ≡ pool_capacity pool.now }
{
    let cells = length_capacity(pool)?;
    if usize::from(pool[CAPACITY]) != cells {
        return None;
    }
    Some(cells)
}
