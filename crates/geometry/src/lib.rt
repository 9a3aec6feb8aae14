// Points, search ranges and regions of seven axes (document 01, "Boxes as points" and "The tree").
// Nothing here knows of a pool or a file.
#![tactic(auto)]

pub mod axis;
pub mod range;
pub mod region;

// The child on the left has the lower half of a region, the one on the right the upper half.
#[derive(Clone, Copy)]
pub enum Side {
    Left,
    Right,
}
