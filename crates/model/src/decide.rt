// Which grant decides, and the answer it gives (document 01, "The plain book": decide; document 02, card 1; specs/Decide says the same).
ghost use Rattle.std.specs.Prelude.{◌≡◌, ◌<◌};
ghost use Rattle.model.specs.Quarters.{top_quarter};
ghost use Rattle.model.specs.Box.{point_box};
ghost use Rattle.model.specs.Decide.{outranks, decision_of};

use crate::{Box, Decision, Grant, Kind};

// The box of the one point that is asked about, at a quarter that a grant can cover.
pub fn point_box(staff: u16, door: u16, quarter: u16) -> Box
    requires { quarter < top_quarter }
    ensures { result ≡ point_box staff door quarter }
{
    Box {
        staff_from: staff,
        staff_to: staff,
        door_from: door,
        door_to: door,
        quarter_from: quarter,
        quarter_to: quarter + 1,
    }
}

// Whether the first grant decides over the second: by the higher rank, at equal rank by the higher number.
#[tactic(auto, unfolding(crate::specs::Decide::outranks))]
pub fn outranks(g: Grant, h: Grant) -> bool
    ensures { result ≡ outranks g h }
{
    h.rank < g.rank || g.rank == h.rank && h.number < g.number
}

// The answer by the kind of the grant that decides, with the whole grant.
pub fn decision_of(g: Grant) -> Decision
    ensures { result ≡ decision_of g.kind g }
{
    let kind = g.kind;
    match kind {
        Kind::Bars => Decision::Barred(g),
        Kind::Opens => Decision::Opens(g),
    }
}
