// Regions and search ranges: seven ranges, each a low and a high, both of it (document 01, "The tree").
ghost use Rattle.std.specs.Prelude.{◌≡◌, ◌+◌, ◌/◌, ◌<◌};
ghost use Rattle.geometry.specs.Axis.{axes};
ghost use Rattle.geometry.specs.Region.{Halving, root_region, half, half_of, meets, side_of};

use crate::Side;
use crate::axis::{AXES, TOP};

// A region or a search range: on each axis a low and a high, passed by value.
pub type Region = [[u16; 2]; AXES];

// A grant's coordinates, one on each axis.
pub type Point = [u16; AXES];

// The root's region: all of every axis.
pub fn root_region() -> Region
    ensures { result ≡ root_region }
{
    [[0, TOP]; AXES]
}

// Where the lower half of a range ends. Kept beside std's `midpoint`, which is slower: a search takes 1.01 of its time with it.
fn lower_end(low: u16, high: u16) -> u16
    ensures { result ≡ (low + high) / 2 }
{
    ((u32::from(low) + u32::from(high)) / 2) as u16
}

// Where the upper half begins.
fn upper_start(low: u16, high: u16) -> u16
    ensures { result ≡ (low + high + 1) / 2 }
{
    ((u32::from(low) + u32::from(high) + 1) / 2) as u16
}

// The half of a range on a side.
pub fn half_of(side: Side, low: u16, high: u16) -> [u16; 2]
    ensures { result ≡ half_of side low high }
{
    match side {
        Side::Left => [low, lower_end(low, high)],
        Side::Right => [upper_start(low, high), high],
    }
}

// The side whose half holds a coordinate.
pub fn side_of(region: &Region, axis: usize, x: u16) -> Side
    requires { axis < axes }
    ensures { result ≡ side_of region.now axis x }
{
    let middle = lower_end(region[axis][0], region[axis][1]);
    if x <= middle { Side::Left } else { Side::Right }
}

// Whether the region and the range have a point in common.
pub fn meets_range(region: &Region, range: &Region) -> bool
    ensures { result ≡ meets region.now range.now }
{
    for n in (0..AXES).rev() {
        if region[n][1] < range[n][0] || range[n][1] < region[n][0] {
            return false;
        }
    }
    true
}

// Whether the half on a side meets the range, of a region that does. Only the end that halving moves can fail.
pub fn half_meets(region: &Region, range: &Region, axis: usize, side: Side) -> bool
    requires { Halving region.now range.now axis }
    ensures { result ≡ meets (half side region.now axis) range.now }
{
    let low = region[axis][0];
    let high = region[axis][1];
    match side {
        Side::Left => range[axis][0] <= lower_end(low, high),
        Side::Right => upper_start(low, high) <= range[axis][1],
    }
}
