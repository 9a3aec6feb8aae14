// How a grant's box stands to an asked one, and which of them list takes (document 02, card 4; specs/Relation says the same).
ghost use Rattle.std.specs.Prelude.{◌≡◌};
ghost use Rattle.model.specs.Overlap.{overlaps};
ghost use Rattle.model.specs.Relation.{holds_range, holds_box, relation_of, takes};

use crate::{Box, Choice, Relation};

// Whether two boxes overlap on staff, doors and quarters.
#[tactic(auto, unfolding(crate::specs::Overlap::overlaps))]
fn overlaps(a: Box, b: Box) -> bool
    ensures { result ≡ overlaps a b }
{
    a.staff().overlaps(b.staff())
        && a.doors().overlaps(b.doors())
        && a.quarters().overlaps(b.quarters())
}

// Whether a range begins no later and ends no earlier than another. Ends and not ranges, as it serves both kinds of range.
fn holds_range(from: u16, to: u16, other_from: u16, other_to: u16) -> bool
    ensures { result ≡ holds_range from to other_from other_to }
{
    from <= other_from && other_to <= to
}

// Whether the first box holds all of the second.
#[tactic(auto, unfolding(crate::specs::Relation::holds_box))]
fn holds_box(a: Box, b: Box) -> bool
    ensures { result ≡ holds_box a b }
{
    holds_range(a.staff_from, a.staff_to, b.staff_from, b.staff_to)
        && holds_range(a.door_from, a.door_to, b.door_from, b.door_to)
        && holds_range(a.quarter_from, a.quarter_to, b.quarter_from, b.quarter_to)
}

// The test of a grant's box against an asked one. Holding matters only where they overlap.
#[tactic(auto, unfolding(crate::specs::Relation::relation_of))]
pub fn relation_of(a: Box, b: Box) -> Relation
    ensures { result ≡ relation_of a b }
{
    if !overlaps(a, b) {
        return Relation::Apart;
    }
    if holds_box(a, b) {
        return Relation::Holds;
    }
    Relation::Touches
}

// Whether list's choice takes a grant that stands so to its box.
#[tactic(auto, unfolding(crate::specs::Relation::takes))]
pub fn takes(choice: Choice, relation: Relation) -> bool
    ensures { result ≡ takes choice relation }
{
    match choice {
        Choice::Touching => relation != Relation::Apart,
        Choice::Holding => relation == Relation::Holds,
    }
}
