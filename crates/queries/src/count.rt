// count: the live grants, and C less live (document 01, "The plain book"). Refuses by 1, then 9.
ghost use Rattle.std.specs.Prelude.{◌≡◌};
ghost use Rattle.model.specs.Answer.{counted_answer};
ghost use Rattle.calls.specs.Calls.{count_call};

use adt::predicates::Predicate;
use geometry::region::root_region;
use model::{Cells, Fault};
use pool::layout::{MAX_CAPACITY, capacity};
use steps::hits::find_hits;

pub fn count(pool: &[u16]) -> Result<Cells, Fault>
    ensures { counted_answer result ≡ (count_call pool.now).answer }
{
    let cells = capacity(pool).ok_or(Fault::BadPool)?;
    let everything = root_region();
    let mut hits = [0u16; MAX_CAPACITY];
    let live = find_hits(pool, cells, &everything, Predicate::InRange, &mut hits)?;
    Ok(Cells {
        live,
        free: cells - live,
    })
}
