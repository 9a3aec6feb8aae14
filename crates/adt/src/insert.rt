// Insertion: a new point goes down from the root by the half that holds it, to the first blank link; the free head's cell is added there.
ghost use Rattle.std.specs.Prelude.{◌≡◌};
ghost use Rattle.pool.specs.Capacity.{Sized};
ghost use Rattle.adt.specs.Insert.{descend, inserted};
ghost use Rattle.adt.specs.WalkResult.{insertion_walk_of, FreeSlot};

use crate::Broken;
use crate::node::link_place;
use geometry::axis::{LEVELS, axis_of};
use geometry::region::{Point, half_of, root_region, side_of};
use model::Grant;
use pool::Field;
use pool::cell::store_grant;
use pool::layout::{FREE, ROOT, field};

// Where a way down ends: the place of the blank link, and the cell that it is a link of, 0 for the root's.
#[derive(Clone, Copy)]
pub struct Slot {
    pub link: usize,
    pub parent: u16,
}

// The way down of a point: at each level it meets one cell.
pub fn find_slot(pool: &[u16], cells: usize, point: Point) -> Result<Slot, Broken>
    requires { Sized pool.now cells }
    ensures { insertion_walk_of result ≡ descend pool.now point }
{
    let mut region = root_region();
    let mut parent: u16 = 0;
    let mut link: usize = ROOT;
    for level in 0..LEVELS + 1 {
        let child = pool[link];
        let k = usize::from(child);
        if k == 0 {
            return Ok(Slot { link, parent });
        }
        if cells < k {
            return Err(Broken);
        }
        if cells <= level {
            return Err(Broken);
        }
        if field(pool, k, Field::Parent) != parent {
            return Err(Broken);
        }
        let axis = axis_of(level);
        let side = side_of(&region, axis, point[axis]);
        region[axis] = half_of(side, region[axis][0], region[axis][1]);
        link = link_place(k, side);
        parent = child;
    }
    Err(Broken)
}

// Hangs the free head's cell at the parent's blank link with the grant in it; the free head moves on to the next free cell.
pub fn insert(pool: &mut [u16], link: usize, parent: u16, free: usize, next: u16, g: Grant)
    requires { FreeSlot pool.old link free next }
    ensures { pool.new ≡ inserted pool.old link parent g }
{
    store_grant(pool, free, g, parent);
    pool[link] = free as u16;
    pool[FREE] = next;
}
