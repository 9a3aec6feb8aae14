// The words of a pool: header, cells, free list (document 01, "The tree").
// Nothing here knows of regions or of a walk.
#![tactic(auto)]

pub mod cell;
pub mod fresh;
pub mod layout;

// The words of a cell, each with its place among them.
#[derive(Clone, Copy)]
pub enum Field {
    Left = 0,
    Right = 1,
    Number = 2,
    RankKind = 3,
    StaffFrom = 4,
    StaffTo = 5,
    DoorFrom = 6,
    DoorTo = 7,
    QuarterFrom = 8,
    QuarterTo = 9,
    Parent = 10,
}
