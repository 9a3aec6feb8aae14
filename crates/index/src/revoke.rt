// revoke: drops the grant of a number. Refuses 1, 3, 9 and 7, in this order, and then leaves everything as it was.
ghost use Rattle.model.specs.Answer.{outcome_answer};
ghost use Rattle.calls.specs.Calls.{revoke_call};
ghost use Rattle.calls.specs.Contract.{Leaves};
ghost use Rattle.index.specs.Plans.{RemovalPlanned};

use crate::find::find_live;
use adt::remove::{find_terminal, remove};
use geometry::axis::LEVELS;
use model::Fault;

// What revoke is to remove, once all walks and tests are done: a cell that hangs at a link's place, by a terminal cell and the place of its link, in
// a pool of so many cells.
#[derive(Clone, Copy)]
pub struct Removal {
    cells: usize,
    cell: usize,
    link: usize,
    leaf: usize,
    cut: usize,
}

// All walks and tests of revoke; nothing is written.
fn plan_removal(pool: &[u16], number: u16) -> Result<Removal, Fault>
    ensures { RemovalPlanned pool.now number result }
{
    let hit = find_live(pool, number)?;
    let end = find_terminal(pool, hit.cells, LEVELS - hit.level, hit.cell, hit.link, 1)?;
    Ok(Removal {
        cells: hit.cells,
        cell: hit.cell,
        link: hit.link,
        leaf: end.cell,
        cut: end.link,
    })
}

pub fn revoke(pool: &mut [u16], number: u16) -> Result<(), Fault>
    ensures { Leaves (outcome_answer result) pool.new (revoke_call pool.old number) }
{
    let at = plan_removal(pool, number)?;
    remove(pool, at.cells, at.cell, at.link, at.leaf, at.cut);
    Ok(())
}
