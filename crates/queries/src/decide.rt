// decide: opens or barred with the whole grant that decides, or none (document 01, "The plain book"). Refuses by 1, then 9. At the highest
// quarter, which no grant covers, it walks nothing (document 02, card 2).
ghost use Rattle.std.specs.Prelude.{◌≡◌};
ghost use Rattle.model.specs.Answer.{decision_answer};
ghost use Rattle.model.specs.Decide.{decide_among};
ghost use Rattle.steps.specs.Hits.{Cells, grants_at};
ghost use Rattle.calls.specs.Calls.{decide_call};

use model::bounds::is_coverable;
use model::decide::{decision_of, outranks, point_box};
use model::{Choice, Decision, Fault};
use pool::cell::grant_at;
use pool::layout::{MAX_CAPACITY, capacity};
use steps::hits::find_taken;

// What the grants in the cells of the hits decide, in one pass: a later one takes the place only of one that it outranks.
fn decide_among(pool: &[u16], hits: &[u16]) -> Decision
    requires { Cells pool.now hits.now }
    ensures { result ≡ decide_among (grants_at pool.now hits.now) }
{
    let [first, rest @ ..] = hits else {
        return Decision::None;
    };
    let mut deciding = grant_at(pool, usize::from(*first));
    for hit in rest {
        let other = grant_at(pool, usize::from(*hit));
        if outranks(other, deciding) {
            deciding = other;
        }
    }
    decision_of(deciding)
}

pub fn decide(pool: &[u16], staff: u16, door: u16, quarter: u16) -> Result<Decision, Fault>
    ensures { decision_answer result ≡ (decide_call pool.now staff door quarter).answer }
{
    let cells = capacity(pool).ok_or(Fault::BadPool)?;
    if !is_coverable(quarter) {
        return Ok(Decision::None);
    }
    let point = point_box(staff, door, quarter);
    let mut hits = [0u16; MAX_CAPACITY];
    let found = find_taken(pool, cells, point, Choice::Touching, &mut hits)?;
    let hits = &hits[..found];
    Ok(decide_among(pool, hits))
}
