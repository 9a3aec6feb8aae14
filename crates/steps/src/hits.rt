// The searches that list, decide, who, count, write and match make.
ghost use Rattle.adt.specs.Predicate.{test_of};
ghost use Rattle.steps.specs.Hits.{Searchable, BoxSearchable, HitsFound, TakenFound};

use adt::Broken;
use adt::predicates::Predicate;
use adt::search::{Counters, HitCells, search};
use geometry::range::range_of_box;
use geometry::region::Region;
use model::{Box, Choice};

// Leaves the cells of the hits at the start of `hits`, in the order of the search, and says how many there are.
pub fn find_hits(
    pool: &[u16],
    cells: usize,
    range: &Region,
    predicate: Predicate,
    hits: &mut HitCells,
) -> Result<usize, Broken>
    requires { Searchable pool.now cells range.now hits.old }
    ensures { HitsFound pool.now range.now (test_of predicate range.now) hits.new result }
{
    let mut counters = Counters::default();
    search(pool, cells, range, predicate, hits, &mut counters)?;
    Ok(counters.found)
}

// The search of a box, for the cells that a choice takes.
pub fn find_taken(
    pool: &[u16],
    cells: usize,
    bounds: Box,
    choice: Choice,
    hits: &mut HitCells,
) -> Result<usize, Broken>
    requires { BoxSearchable pool.now cells bounds hits.old }
    ensures { TakenFound pool.now bounds choice hits.new result }
{
    let range = range_of_box(bounds);
    find_hits(
        pool,
        cells,
        &range,
        Predicate::Taken { bounds, choice },
        hits,
    )
}
