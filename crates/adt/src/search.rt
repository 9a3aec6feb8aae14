// The search: source 001's three steps. `visit` tests a cell and enters its two subtrees; `enter` tests a subtree's region against
// the range and visits its cell. The levels remaining fall. A search that meets a cause of fault 9 stops at once.
ghost use Rattle.geometry.specs.SearchRange.{OneSided};
ghost use Rattle.adt.specs.Search.{search_by};
ghost use Rattle.adt.specs.Predicate.{test_of};
ghost use Rattle.adt.specs.SearchMemory.{Fresh, Encodes, Testing, Visiting, Entering, tested, visited, entered};

use crate::Broken;
use crate::node::link_place;
use crate::predicates::{Predicate, is_hit};
use geometry::Side;
use geometry::axis::{LEVELS, axis_of};
use geometry::region::{Region, half_meets, half_of, meets_range, root_region};
use pool::Field;
use pool::layout::{MAX_CAPACITY, ROOT, field};

// Room for a hit of every cell: the cells of the hits, in the order of the search.
pub type HitCells = [u16; MAX_CAPACITY];

// What a search counts: the cells met, the hits found, and of the first hit its level and the place of the link it hangs on.
#[derive(Clone, Copy, Default)]
pub struct Counters {
    met: usize,
    pub found: usize,
    pub level: usize,
    pub link: usize,
}

// What stays as it is during a search: the pool and how many cells it has, the search range and what is a hit. By reference: as arguments of their
// own they would be copied at each cell.
#[derive(Clone, Copy)]
struct Walk<'a> {
    pool: &'a [u16],
    cells: usize,
    range: &'a Region,
    predicate: &'a Predicate,
}

// Counts the cell k as met, and keeps it if it is a hit; broken where all cells have been met before.
fn test(
    walk: &Walk,
    k: usize,
    level: usize,
    link: usize,
    hits: &mut HitCells,
    counters: &mut Counters,
) -> Result<(), Broken>
    requires { Testing walk.now.pool.now walk.now.cells walk.now.range.now hits.old counters.old k }
    ensures { Encodes walk.now.cells result hits.new counters.new
        (tested walk.now.pool.now walk.now.cells walk.now.range.now
        (test_of walk.now.predicate.now walk.now.range.now) hits.old counters.old k level link) }
{
    if walk.cells <= counters.met {
        return Err(Broken);
    }
    counters.met += 1;
    if !is_hit(walk.pool, k, walk.range, walk.predicate) {
        return Ok(());
    }
    let found = counters.found;
    counters.found = found + 1;
    hits[found] = k as u16;
    if found == 0 {
        counters.level = level;
        counters.link = link;
    }
    Ok(())
}

// Tests the cell k, which hangs at the link's place with a region of its own and a number of levels below it; then enters its left and its
// right subtree, where it has one.
#[cycle(enter_visit)]
fn visit(
    walk: &Walk,
    below: usize,
    k: usize,
    link: usize,
    region: Region,
    hits: &mut HitCells,
    counters: &mut Counters,
) -> Result<(), Broken>
    requires { Visiting walk.now.pool.now walk.now.cells walk.now.range.now hits.old counters.old k below region }
    ensures { Encodes walk.now.cells result hits.new counters.new
        (visited walk.now.pool.now walk.now.cells walk.now.range.now
        (test_of walk.now.predicate.now walk.now.range.now) hits.old counters.old k below link region) }
{
    let level = LEVELS - below;
    test(walk, k, level, link, hits, counters)?;
    let left = usize::from(field(walk.pool, k, Field::Left));
    if left != 0 {
        enter(walk, below, k, Side::Left, left, region, hits, counters)?;
    }
    let right = usize::from(field(walk.pool, k, Field::Right));
    if right == 0 {
        return Ok(());
    }
    enter(walk, below, k, Side::Right, right, region, hits, counters)
}

// Goes through the link of the parent on a side, which leads to the child, if the half of the parent's region on that side meets the range, and
// visits the child, which must name that parent. So many levels are below the parent. The root, entered with one level more than there are, has no
// parent, and all of the region that is handed in. `visit` is called from here alone, so that both are one frame of the stack a level (tests/stack).
#[cycle(enter_visit)]
fn enter(
    walk: &Walk,
    below: usize,
    parent: usize,
    side: Side,
    child: usize,
    mut region: Region,
    hits: &mut HitCells,
    counters: &mut Counters,
) -> Result<(), Broken>
    requires { Entering walk.now.pool.now walk.now.cells walk.now.range.now hits.old counters.old below parent side child region }
    ensures { Encodes walk.now.cells result hits.new counters.new
        (entered walk.now.pool.now walk.now.cells walk.now.range.now
        (test_of walk.now.predicate.now walk.now.range.now) hits.old counters.old below parent side region) }
{
    if below == 0 {
        return Err(Broken);
    }
    let mut link: usize = ROOT;
    if below <= LEVELS {
        let axis = axis_of(LEVELS - below);
        if !half_meets(&region, walk.range, axis, side) {
            return Ok(());
        }
        region[axis] = half_of(side, region[axis][0], region[axis][1]);
        link = link_place(parent, side);
    }
    if walk.cells < child {
        return Err(Broken);
    }
    if usize::from(field(walk.pool, child, Field::Parent)) != parent {
        return Err(Broken);
    }
    visit(walk, below - 1, child, link, region, hits, counters)
}

// Searches the tree through the range, for the cells that are hits by the predicate. Leaves them in `hits`, in the order of the search, and in
// `counters` how many there are, with the first one's level and the place of its link.
pub fn search(
    pool: &[u16],
    cells: usize,
    range: &Region,
    predicate: Predicate,
    hits: &mut HitCells,
    counters: &mut Counters,
) -> Result<(), Broken>
    requires { Fresh pool.now cells hits.old counters.old × OneSided range.now }
    ensures { Encodes cells result hits.new counters.new
        (search_by pool.now range.now (test_of predicate range.now)) }
{
    let root = usize::from(pool[ROOT]);
    if root == 0 {
        return Ok(());
    }
    let region = root_region();
    if !meets_range(&region, range) {
        return Ok(());
    }
    let walk = Walk {
        pool,
        cells,
        range,
        predicate: &predicate,
    };
    enter(
        &walk,
        LEVELS + 1,
        0,
        Side::Left,
        root,
        region,
        hits,
        counters,
    )
}
