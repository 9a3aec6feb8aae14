// The cells from a grant's own up to the root, by the parents that they name, one at a time (specs/GrantPath). Refuses by 1, 3, 9 and 7, in
// this order, as revoke does; the pool stays as it is. Searches afresh for each, so that nothing is kept between two rows.
ghost use Rattle.std.specs.Prelude.{◌≡◌};
ghost use Rattle.grant_path.specs.GrantPath.{ParentWalk, ancestor_from, ancestor_at};

use index::find::find_live;
use model::{Fault, Grant};
use pool::Field;
use pool::cell::grant_at;
use pool::layout::field;

// A cell on the way up, its level, 0 for the root's, and the grant in it.
#[derive(Clone, Copy)]
pub struct Ancestor {
    pub cell: u16,
    pub level: u16,
    pub grant: Grant,
}

// The cell so many steps above a cell, which is at this level; None past the root. The search that found the cell has tested all parents on the way
// to it.
fn ancestor_from(pool: &[u16], cell: usize, level: usize, steps: usize) -> Option<Ancestor>
    requires { ParentWalk pool.now cell level }
    ensures { result ≡ ancestor_from pool.now cell level steps }
{
    let above = level.checked_sub(steps)?;
    let mut at = cell;
    for _ in 0..steps {
        at = usize::from(field(pool, at, Field::Parent));
    }
    Some(Ancestor {
        cell: at as u16,
        level: above as u16,
        grant: grant_at(pool, at),
    })
}

// The cell i steps above that of the grant of this number, which is its own at 0; None past the root.
pub fn ancestor_at(pool: &[u16], number: u16, i: usize) -> Result<Option<Ancestor>, Fault>
    ensures { result ≡ ancestor_at pool.now number i }
{
    let hit = find_live(pool, number)?;
    Ok(ancestor_from(pool, hit.cell, hit.level, i))
}
