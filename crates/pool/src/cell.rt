// What a cell carries: read whole as a grant, stored whole as a node without children or as a free cell.
ghost use Rattle.std.specs.Prelude.{◌≡◌, length};
ghost use Rattle.pool.specs.Capacity.{InPool};
ghost use Rattle.pool.specs.Layout.{cell_words};
ghost use Rattle.pool.specs.Cell.{grant_at, cell_of, with_cell};
ghost use Rattle.pool.specs.Fresh.{free_cell};

use crate::Field;
use crate::layout::{CELL_WORDS, field, place_of};
use model::{Box, Grant, Kind};

// The box of the grant in a cell.
pub fn bounds_at(pool: &[u16], cell: usize) -> Box
    requires { InPool pool.now cell }
    ensures { result ≡ (grant_at pool.now cell).bounds }
{
    Box {
        staff_from: field(pool, cell, Field::StaffFrom),
        staff_to: field(pool, cell, Field::StaffTo),
        door_from: field(pool, cell, Field::DoorFrom),
        door_to: field(pool, cell, Field::DoorTo),
        quarter_from: field(pool, cell, Field::QuarterFrom),
        quarter_to: field(pool, cell, Field::QuarterTo),
    }
}

// The grant in a cell.
pub fn grant_at(pool: &[u16], cell: usize) -> Grant
    requires { InPool pool.now cell }
    ensures { result ≡ grant_at pool.now cell }
{
    let rank_kind = field(pool, cell, Field::RankKind);
    Grant {
        number: field(pool, cell, Field::Number),
        rank: (rank_kind / 2 % 256) as u8,
        kind: Kind::of((rank_kind % 2) as u8),
        bounds: bounds_at(pool, cell),
    }
}

// Stores the words of a cell.
fn store_cell(pool: &mut [u16], cell: usize, words: [u16; CELL_WORDS])
    requires { InPool pool.old cell × (length words ≡ cell_words) }
    ensures { pool.new ≡ with_cell pool.old cell words }
{
    let at = place_of(cell, Field::Left);
    pool[at..at + CELL_WORDS].copy_from_slice(&words);
}

// Stores a grant as a node without children below its parent.
pub fn store_grant(pool: &mut [u16], cell: usize, g: Grant, parent: u16)
    requires { InPool pool.old cell }
    ensures { pool.new ≡ with_cell pool.old cell (cell_of 0 0 g parent) }
{
    let b = g.bounds;
    let rank_kind = u16::from(g.rank) * 2 + u16::from(u8::from(g.kind));
    let words = [
        0,
        0,
        g.number,
        rank_kind,
        b.staff_from,
        b.staff_to,
        b.door_from,
        b.door_to,
        b.quarter_from,
        b.quarter_to,
        parent,
    ];
    store_cell(pool, cell, words);
}

// Stores a free cell that leads to the next one.
pub fn store_free(pool: &mut [u16], cell: usize, next: u16)
    requires { InPool pool.old cell }
    ensures { pool.new ≡ with_cell pool.old cell (free_cell next) }
{
    store_cell(pool, cell, [next, 0, 0, 0, 0, 0, 0, 0, 0, 0, 0]);
}
