// Who may open this door at this quarter: the grants that touch both, ascending by number, a grant at a time, each with how far it stands
// among them (specs/Touching). Refuses by 1, then 9, as decide does, and walks nothing at the highest quarter. Searches afresh for each, so that
// nothing is kept between two rows.
ghost use Rattle.std.specs.Prelude.{◌≡◌, ◌<◌};
ghost use Rattle.lists.specs.Sort.{sort_by};
ghost use Rattle.model.specs.Quarters.{top_quarter};
ghost use Rattle.steps.specs.Hits.{Cells, grants_at};
ghost use Rattle.panel.specs.Touching.{door_box, placed, touching_at};

use geometry::axis::TOP;
use model::bounds::is_coverable;
use model::{Box, Choice, Fault, Grant};
use pool::cell::grant_at;
use pool::layout::{MAX_CAPACITY, capacity};
use precedence::Precedence;
use precedence::overriding::precedence_among;
use steps::hits::find_taken;
use steps::sorted_cells::sort_cells;

// A grant that touches a door and a quarter, and how far it stands among all that do.
#[derive(Clone, Copy)]
pub struct Touching {
    pub grant: Grant,
    pub precedence: Precedence,
}

// One door and one quarter that a grant can cover, with the staff axis free.
fn door_box(door: u16, quarter: u16) -> Box
    requires { quarter < top_quarter }
    ensures { result ≡ door_box door quarter }
{
    Box {
        staff_from: 0,
        staff_to: TOP,
        door_from: door,
        door_to: door,
        quarter_from: quarter,
        quarter_to: quarter + 1,
    }
}

// The grant in the i-th of the hits' cells, and how far it stands among all of them; None past the last.
fn placed(pool: &[u16], hits: &[u16], i: usize) -> Option<Touching>
    requires { Cells pool.now hits.now }
    ensures { result ≡ placed (grants_at pool.now hits.now) i }
{
    let cell = hits.get(i)?;
    let grant = grant_at(pool, usize::from(*cell));
    let precedence = precedence_among(pool, hits, grant);
    Some(Touching { grant, precedence })
}

// The same, of the hits' cells in the order of their grants' numbers.
fn sorted_placed(pool: &[u16], hits: &[u16], i: usize) -> Option<Touching>
    requires { Cells pool.now hits.now }
    ensures { result ≡ placed (sort_by (λ g. g.number) (grants_at pool.now hits.now)) i }
{
    let mut room = [0u16; MAX_CAPACITY];
    let sorted = &mut room[..hits.len()];
    sort_cells(pool, hits, sorted);
    placed(pool, sorted, i)
}

// The grant at place i, from 0, of those that touch the door and the quarter, and how far it stands among them; None past the last.
pub fn touching_at(
    pool: &[u16],
    door: u16,
    quarter: u16,
    i: usize,
) -> Result<Option<Touching>, Fault>
    ensures { result ≡ touching_at pool.now door quarter i }
{
    let cells = capacity(pool).ok_or(Fault::BadPool)?;
    if !is_coverable(quarter) {
        return Ok(None);
    }
    let bounds = door_box(door, quarter);
    let mut hits = [0u16; MAX_CAPACITY];
    let found = find_taken(pool, cells, bounds, Choice::Touching, &mut hits)?;
    let hits = &hits[..found];
    Ok(sorted_placed(pool, hits, i))
}
