// The axes, the levels and the width of a coordinate. Each is named here alone; specs/Axis, Levels and Width say the same.
ghost use Rattle.std.specs.Prelude.{◌≡◌, ◌<◌};
ghost use Rattle.geometry.specs.Axis.{axes, axis_of};

pub const AXES: usize = 7;

// Document 01's axes, in their order.
pub const STAFF_FROM: usize = 0;

pub const DOOR_FROM: usize = 1;

pub const QUARTER_FROM: usize = 2;

pub const STAFF_TO: usize = 3;

pub const DOOR_TO: usize = 4;

pub const QUARTER_TO: usize = 5;

pub const NUMBER: usize = 6;

pub const LEVELS: usize = 112;

pub const TOP: u16 = 65535;

// The axis that a level halves: a table of the axes in the order in which the levels halve them; after the last comes the first again.
pub fn axis_of(level: usize) -> usize
    ensures { (result ≡ axis_of level) × (result < axes) }
{
    let place = level % AXES;
    match place {
        0 => STAFF_FROM,
        1 => DOOR_FROM,
        2 => QUARTER_FROM,
        3 => STAFF_TO,
        4 => DOOR_TO,
        5 => QUARTER_TO,
        _ => NUMBER,
    }
}
