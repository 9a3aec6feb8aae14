// What a search takes as a hit among the cells that it meets (specs/Predicate).
ghost use Rattle.std.specs.Prelude.{◌≡◌};
ghost use Rattle.model.specs.Relation.{taken};
ghost use Rattle.geometry.specs.SearchRange.{OneSided};
ghost use Rattle.pool.specs.Capacity.{InPool};
ghost use Rattle.pool.specs.Cell.{grant_at};
ghost use Rattle.adt.specs.Predicate.{test_of};

use crate::node::in_range;
use geometry::region::Region;
use model::relations::{relation_of, takes};
use model::{Box, Choice};
use pool::cell::bounds_at;

// The cell's point lies in the search range, or list's choice takes its grant for a box.
#[derive(Clone, Copy)]
pub enum Predicate {
    InRange,
    Taken { bounds: Box, choice: Choice },
}

// Whether the choice takes the grant in a cell for a box.
fn is_taken(pool: &[u16], cell: usize, bounds: &Box, choice: Choice) -> bool
    requires { InPool pool.now cell }
    ensures { result ≡ taken choice bounds.now (grant_at pool.now cell) }
{
    takes(choice, relation_of(bounds_at(pool, cell), *bounds))
}

// Whether a cell that is met is a hit. The choice is tested first, so that what only holding looks at is left out for touching.
pub fn is_hit(pool: &[u16], cell: usize, range: &Region, predicate: &Predicate) -> bool
    requires { InPool pool.now cell × OneSided range.now }
    ensures { result ≡ test_of predicate.now range.now (grant_at pool.now cell) }
{
    match predicate {
        Predicate::InRange => in_range(pool, cell, range),
        Predicate::Taken {
            bounds,
            choice: Choice::Touching,
        } => is_taken(pool, cell, bounds, Choice::Touching),
        Predicate::Taken {
            bounds,
            choice: Choice::Holding,
        } => is_taken(pool, cell, bounds, Choice::Holding),
    }
}
