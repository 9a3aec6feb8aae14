// A cell as a node of the tree.
ghost use Rattle.std.specs.Prelude.{◌≡◌, ◌<◌, ◌≤◌};
ghost use Rattle.model.specs.Limits.{max_grants};
ghost use Rattle.geometry.specs.Point.{point_of, in_range};
ghost use Rattle.geometry.specs.SearchRange.{OneSided};
ghost use Rattle.pool.specs.Capacity.{pool_length, InPool};
ghost use Rattle.pool.specs.Cell.{grant_at};
ghost use Rattle.adt.specs.Node.{link_place};

use geometry::Side;
use geometry::axis::{DOOR_FROM, DOOR_TO, NUMBER, QUARTER_FROM, QUARTER_TO, STAFF_FROM, STAFF_TO};
use geometry::region::{Point, Region};
use model::Grant;
use pool::Field;
use pool::layout::{field, place_of};

// A grant as a point on seven axes.
pub fn point_of(g: Grant) -> Point
    ensures { result ≡ point_of g }
{
    let b = g.bounds;
    [
        b.staff_from,
        b.door_from,
        b.quarter_from,
        b.staff_to,
        b.door_to,
        b.quarter_to,
        g.number,
    ]
}

// Whether the point of the grant in a cell lies in a search range. Only the comparisons that can fail are made.
pub fn in_range(pool: &[u16], cell: usize, range: &Region) -> bool
    requires { InPool pool.now cell × OneSided range.now }
    ensures { result ≡ in_range range.now (grant_at pool.now cell) }
{
    let number = field(pool, cell, Field::Number);
    if number < range[NUMBER][0] {
        return false;
    }
    if range[NUMBER][1] < number {
        return false;
    }
    if range[STAFF_FROM][1] < field(pool, cell, Field::StaffFrom) {
        return false;
    }
    if field(pool, cell, Field::StaffTo) < range[STAFF_TO][0] {
        return false;
    }
    if range[DOOR_FROM][1] < field(pool, cell, Field::DoorFrom) {
        return false;
    }
    if field(pool, cell, Field::DoorTo) < range[DOOR_TO][0] {
        return false;
    }
    if range[QUARTER_FROM][1] < field(pool, cell, Field::QuarterFrom) {
        return false;
    }
    if field(pool, cell, Field::QuarterTo) < range[QUARTER_TO][0] {
        return false;
    }
    true
}

// The place of a cell's link to its child on a side.
pub fn link_place(cell: usize, side: Side) -> usize
    requires { (0 < cell) × (cell ≤ max_grants) }
    ensures { (result ≡ link_place cell side) × (result < pool_length cell) }
{
    match side {
        Side::Left => place_of(cell, Field::Left),
        Side::Right => place_of(cell, Field::Right),
    }
}
