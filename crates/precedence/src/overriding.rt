// How far a grant stands (specs/Precedence): whole, partly, or nowhere because grants that outrank it cover all its staff.
// The grants are those that touch a door and a quarter: in the pool's cells that a search left as its hits, as decide reads them.
// The panel's screen has them from steps::hits::find_taken, whose contract gives what `precedence_among` requires.
ghost use Rattle.std.specs.Prelude.{◌≡◌};
ghost use Rattle.lists.specs.Tests.{any};
ghost use Rattle.steps.specs.Hits.{Cells, grants_at};
ghost use Rattle.precedence.specs.Precedence.{overrides, precedence};
ghost use Rattle.precedence.specs.PrecedenceWalk.{share_staff, overrides_some, further, reach};

use crate::Precedence;
use model::decide::outranks;
use model::{Box, Grant};
use pool::cell::grant_at;

// Whether the grant `h` decides over `g` for a staff number that `g` holds.
#[tactic(auto, unfolding(crate::specs::Precedence::overrides))]
pub fn overrides(g: Grant, staff: usize, h: Grant) -> bool
    ensures { result ≡ overrides g staff h }
{
    let b = h.bounds;
    outranks(h, g) && usize::from(b.staff_from) <= staff && staff <= usize::from(b.staff_to)
}

// Whether two boxes share a staff number.
#[tactic(auto, unfolding(crate::specs::PrecedenceWalk::share_staff))]
fn share_staff(a: Box, b: Box) -> bool
    ensures { result ≡ share_staff a b }
{
    a.staff_from <= a.staff_to && b.staff_from <= b.staff_to && a.staff().overlaps(b.staff())
}

// Whether the grant `h` decides over `g` for any staff number of `g`.
#[tactic(auto, unfolding(crate::specs::PrecedenceWalk::overrides_some))]
pub fn overrides_some(g: Grant, h: Grant) -> bool
    ensures { result ≡ overrides_some g h }
{
    outranks(h, g) && share_staff(g.bounds, h.bounds)
}

// The first staff number past `h`, where it overrides `g` at a staff number and goes further than `best`; else `best`.
#[tactic(auto, unfolding(crate::specs::PrecedenceWalk::further))]
fn further(g: Grant, staff: usize, best: usize, h: Grant) -> usize
    ensures { result ≡ further g staff best h }
{
    let b = h.bounds;
    if overrides(g, staff, h) {
        best.max(usize::from(b.staff_to) + 1)
    } else {
        best
    }
}

// Whether one of the hits decides over `g` for any staff number of `g`.
fn overridden_some(pool: &[u16], hits: &[u16], g: Grant) -> bool
    requires { Cells pool.now hits.now }
    ensures { result ≡ any (overrides_some g) (grants_at pool.now hits.now) }
{
    for hit in hits {
        if overrides_some(g, grant_at(pool, usize::from(*hit))) {
            return true;
        }
    }
    false
}

// The first staff number, from one on, that no hit holds of those that override `g` at that one; the number itself where none does.
fn reach(pool: &[u16], hits: &[u16], g: Grant, staff: usize) -> usize
    requires { Cells pool.now hits.now }
    ensures { result ≡ reach g staff staff (grants_at pool.now hits.now) }
{
    let mut best = staff;
    for hit in hits {
        best = further(g, staff, best, grant_at(pool, usize::from(*hit)));
    }
    best
}

// How far `g` stands among the hits. Goes along the staff numbers of `g` by whole grants, so the turns are no more than the hits.
pub fn precedence_among(pool: &[u16], hits: &[u16], g: Grant) -> Precedence
    requires { Cells pool.now hits.now }
    ensures { result ≡ precedence (grants_at pool.now hits.now) g }
{
    if !overridden_some(pool, hits, g) {
        return Precedence::Whole;
    }
    let to = usize::from(g.bounds.staff_to);
    let mut staff = usize::from(g.bounds.staff_from);
    while staff <= to {
        let next = reach(pool, hits, g, staff);
        if next <= staff {
            return Precedence::Partial;
        }
        staff = next;
    }
    Precedence::None
}
