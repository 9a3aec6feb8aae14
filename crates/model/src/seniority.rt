// Wide grants need seniority (specs/Seniority). The one file of src that names the two numbers.
ghost use Rattle.std.specs.Prelude.{◌≡◌};
ghost use Rattle.model.specs.Seniority.{rank_too_low};

use crate::Interval;

// The most doors of a grant below the senior rank.
pub const MAX_JUNIOR_DOORS: usize = 1000;

// The lowest rank of a grant over more.
pub const SENIOR_RANK: u8 = 200;

// Whether a grant's rank is too low for its doors: fault 16. With MAX_JUNIOR_DOORS between its ends a range has one door more.
pub fn is_rank_too_low(rank: u8, doors: Interval) -> bool
    ensures { result ≡ rank_too_low rank doors }
{
    rank < SENIOR_RANK && usize::from(doors.from) + MAX_JUNIOR_DOORS <= usize::from(doors.to)
}
