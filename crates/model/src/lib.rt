// The types of the interface (document 01, "The plain book", "The grants file" and "Faults").
// specs/ says what they mean: Fault and Answer give document 01's number and values of each case.
#![tactic(auto)]

pub mod arguments;
pub mod bounds;
pub mod decide;
pub mod faults;
pub mod kinds;
pub mod relations;
pub mod seniority;

// Document 01's highest C, and the highest n of a file.
pub const MAX_GRANTS: usize = 2048;

// Document 01's kind of a grant: 0 bars, 1 opens.
#[derive(Clone, Copy, PartialEq, Eq)]
pub enum Kind {
    Bars,
    Opens,
}

// Document 01's box. Both ends of staff and of doors belong to it; quarter_to is the first quarter that it doesn't cover (document 02, card 2).
#[derive(Clone, Copy, PartialEq, Eq)]
pub struct Box {
    pub staff_from: u16,
    pub staff_to: u16,
    pub door_from: u16,
    pub door_to: u16,
    pub quarter_from: u16,
    pub quarter_to: u16,
}

// A closed range of staff or doors: both ends belong to it.
#[derive(Clone, Copy)]
pub struct Interval {
    pub from: u16,
    pub to: u16,
}

// A range of quarters: its to is the first quarter that it doesn't cover.
#[derive(Clone, Copy)]
pub struct Quarters {
    pub from: u16,
    pub to: u16,
}

// Document 01's grant.
#[derive(Clone, Copy, PartialEq, Eq)]
pub struct Grant {
    pub number: u16,
    pub rank: u8,
    pub kind: Kind,
    pub bounds: Box,
}

// How a grant stands to a box: they don't overlap, they do, or it holds all of the box (document 02, card 4).
#[derive(Clone, Copy, PartialEq, Eq)]
pub enum Relation {
    Apart,
    Touches,
    Holds,
}

// Which grants list lists: those that touch its box, which includes those that hold it, or those that hold it (document 02, card 4).
#[derive(Clone, Copy)]
pub enum Choice {
    Touching,
    Holding,
}

// Document 01's faults 1 to 14, in this order, then document 02's 16, 24 and 25.
#[derive(Clone, Copy)]
pub enum Fault {
    BadPool,
    Reversed,
    ZeroNumber,
    UnknownKind,
    AlreadyLive,
    Full,
    NotLive,
    ListTooShort { needed: usize },
    BrokenLinks,
    BadLength,
    BadLayout { block: usize },
    BadChecksum { block: usize },
    BadRecord { block: usize },
    BufferTooShort { needed: usize },
    RankTooLow,
    BadOpeningsLength,
    UnorderedQuarters,
}

// What can be wrong in the values of a grant that is asked for: faults 3, 4, 2 and 16, in the order in which they answer.
#[derive(Clone, Copy)]
pub enum RequestFault {
    ZeroNumber,
    UnknownKind,
    Reversed,
    RankTooLow,
}

// The answer of decide: opens with the whole grant, barred with the whole grant, or none.
#[derive(Clone, Copy)]
pub enum Decision {
    Opens(Grant),
    Barred(Grant),
    None,
}

// What count tells of a pool's cells: the live grants, and C less live.
#[derive(Clone, Copy)]
pub struct Cells {
    pub live: usize,
    pub free: usize,
}
