// What the walks search for (document 01, "Boxes as points" and "The walks of a call").
ghost use Rattle.std.specs.Prelude.{◌≡◌, ◌<◌};
ghost use Rattle.geometry.specs.SearchRange.{range_of_box, range_of_doors, range_of_number};

use crate::axis::TOP;
use crate::region::Region;
use model::{Box, Interval};

// A box whose quarters cover one at least. Quarters are half-open, staff and doors closed.
pub fn range_of_box(b: Box) -> Region
    requires { b.quarter_from < b.quarter_to }
    ensures { result ≡ range_of_box b }
{
    let free = [0, TOP];
    let staff_from = [0, b.staff_to];
    let door_from = [0, b.door_to];
    let quarter_from = [0, b.quarter_to - 1];
    let staff_to = [b.staff_from, TOP];
    let door_to = [b.door_from, TOP];
    let quarter_to = [b.quarter_from + 1, TOP];
    [
        staff_from,
        door_from,
        quarter_from,
        staff_to,
        door_to,
        quarter_to,
        free,
    ]
}

// The doors, with the staff and quarter axes free.
pub fn range_of_doors(doors: Interval) -> Region
    ensures { result ≡ range_of_doors doors }
{
    let free = [0, TOP];
    let door_from = [0, doors.to];
    let door_to = [doors.from, TOP];
    [free, door_from, free, free, door_to, free, free]
}

// A number, with all other axes free.
pub fn range_of_number(number: u16) -> Region
    ensures { result ≡ range_of_number number }
{
    let free = [0, TOP];
    [free, free, free, free, free, free, [number, number]]
}
