// A box's ranges, when two ranges overlap (source 001, condition 5), when a box is refused, and when a grant can cover a quarter.
ghost use Rattle.std.specs.Prelude.{◌≡◌};
ghost use Rattle.model.specs.Quarters.{coverable};
ghost use Rattle.model.specs.Box.{staff_of, doors_of, quarters_of};
ghost use Rattle.model.specs.Overlap.{overlap_on, overlap_in_time};
ghost use Rattle.model.specs.Arguments.{reversed_box};

use crate::{Box, Interval, Quarters};

impl Box {
    pub fn staff(self) -> Interval
        ensures { result ≡ staff_of self }
    {
        Interval {
            from: self.staff_from,
            to: self.staff_to,
        }
    }

    pub fn doors(self) -> Interval
        ensures { result ≡ doors_of self }
    {
        Interval {
            from: self.door_from,
            to: self.door_to,
        }
    }

    pub fn quarters(self) -> Quarters
        ensures { result ≡ quarters_of self }
    {
        Quarters {
            from: self.quarter_from,
            to: self.quarter_to,
        }
    }
}

impl Interval {
    // Whether two closed ranges share a value.
    pub fn overlaps(self, other: Interval) -> bool
        ensures { result ≡ overlap_on self other }
    {
        self.from <= other.to && other.from <= self.to
    }
}

impl Quarters {
    // Whether two ranges of quarters, which are half-open, share one. Not one function with that of closed ranges: the two tests have a type each.
    pub fn overlaps(self, other: Quarters) -> bool
        ensures { result ≡ overlap_in_time self other }
    {
        self.from < other.to && other.from < self.to
    }
}

// Whether staff or doors have a from above their to, or the quarters, which are half-open, cover none: fault 2.
#[tactic(auto, unfolding(crate::specs::Arguments::reversed_box))]
pub fn is_reversed(b: Box) -> bool
    ensures { result ≡ reversed_box b }
{
    b.staff_to < b.staff_from || b.door_to < b.door_from || b.quarter_to <= b.quarter_from
}

// The highest quarter, which no grant covers.
const TOP_QUARTER: u16 = 65535;

// Whether a grant can cover a quarter.
pub fn is_coverable(quarter: u16) -> bool
    ensures { result ≡ coverable quarter }
{
    quarter < TOP_QUARTER
}
