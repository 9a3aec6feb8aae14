// Records, blocks and files of grants (document 01, "The grants file"). What they are stands in specs/.
// Any bytes are taken as a file, and none are changed but by the functions that write. Nothing here knows of a pool or makes one.
#![tactic(auto)]

pub mod block;
pub mod block_defects;
pub mod bytes;
pub mod defects;
pub mod file;
pub mod grants;
pub mod layout;
pub mod record;
pub mod record_defects;
pub mod validate;
pub mod verdict;
pub mod write_block;

// What is wrong in a file, finer than document 01's fault: 10; 12; 11 by its causes; 13 by its causes (`Record`).
// A record counts from 1 in its block; its number is the grant's, as it stands there. `older` where the mark is that of the form before this one.
#[derive(Clone, Copy)]
pub enum Defect {
    Length,
    Checksum {
        block: usize,
    },
    Mark {
        block: usize,
        older: bool,
    },
    BlockNumber {
        block: usize,
    },
    TooManyGrants {
        total: usize,
    },
    BlockCount {
        total: usize,
        blocks: usize,
    },
    RecordCount {
        block: usize,
    },
    DoorOrder {
        from: u16,
        to: u16,
    },
    Padding {
        block: usize,
    },
    Record {
        block: usize,
        place: usize,
        number: u16,
        wrong: RecordFault,
    },
}

// Fault 13's causes: a number that is 0 or not above the last, a kind above 1, a box as in fault 2, a rank too low for its doors, doors that the
// file's don't touch.
#[derive(Clone, Copy)]
pub enum RecordFault {
    NumberOrder,
    Kind,
    Reversed,
    RankTooLow,
    Doors,
}
