// A grant hung in the tree: the way down to the blank link and the tests of the free head, which write nothing, and then the stores.
// No entry points: the caller has tested the pool and the grant's values, and knows that its number is new.
ghost use Rattle.std.specs.Prelude.{◌≡◌};
ghost use Rattle.model.specs.Call.{request, requested, request_of};
ghost use Rattle.pool.specs.Capacity.{Sized};
ghost use Rattle.steps.specs.Insertions.{added, SlotPlanned};

use adt::insert::{find_slot, insert};
use adt::node::point_of;
use model::{Box, Fault, Grant, Kind};
use pool::Field;
use pool::layout::{FREE, field};

// Where grant is to hang the free head's cell, once all walks and tests are done: at the place of a blank link, the parent's. Behind the cell
// the free list goes on with the next.
#[derive(Clone, Copy)]
pub struct Insertion {
    pub link: usize,
    pub parent: u16,
    pub free: usize,
    pub next: u16,
}

// The grant of a request whose kind is known.
pub fn requested(number: u16, rank: u8, kind: u8, bounds: Box) -> Grant
    ensures { result ≡ requested (request number rank kind bounds) }
{
    Grant {
        number,
        rank,
        kind: Kind::of(kind),
        bounds,
    }
}

// The way down, and then the free head and the left link of its cell: what is left where the number isn't found.
pub fn plan_slot(pool: &[u16], cells: usize, g: Grant) -> Result<Insertion, Fault>
    requires { Sized pool.now cells }
    ensures { SlotPlanned pool.now (request_of g) result }
{
    let slot = find_slot(pool, cells, point_of(g))?;
    let free = usize::from(pool[FREE]);
    if cells < free {
        return Err(Fault::BrokenLinks);
    }
    if free == 0 {
        return Err(Fault::Full);
    }
    let next = field(pool, free, Field::Left);
    if cells < usize::from(next) {
        return Err(Fault::BrokenLinks);
    }
    Ok(Insertion {
        link: slot.link,
        parent: slot.parent,
        free,
        next,
    })
}

// Grant without the tests of its arguments and the search for the number: load's, whose numbers rise.
pub fn add(pool: &mut [u16], cells: usize, g: Grant)
    requires { Sized pool.old cells }
    ensures { pool.new ≡ added pool.old (request_of g) }
{
    if let Ok(at) = plan_slot(pool, cells, g) {
        insert(pool, at.link, at.parent, at.free, at.next, g);
    }
}
