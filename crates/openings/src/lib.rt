// A door record held against a panel record (document 02, card 13): how many openings agree, and how many are left in each.
// Records are lent bytes, any bytes are taken, and none are changed. Nothing here knows of a grant.
#![tactic(auto)]

mod agreeing;
pub mod compare;
pub mod defects;
mod entries;
pub mod left;

use radix_sort::{KEY_BYTES, MAX_KEYS};

// An entry's bytes: door, quarter and staff.
pub const ENTRY_BYTES: usize = KEY_BYTES;

// The most entries of a record.
pub const MAX_ENTRIES: usize = MAX_KEYS;

// The values of an entry.
#[derive(Clone, Copy)]
pub struct Opening {
    pub door: u16,
    pub quarter: u16,
    pub staff: u32,
}

// What is wrong in a record: it isn't whole entries, it has too many, or the quarter of an entry is below the one before it. Entries are
// numbered as people count: from 1.
#[derive(Clone, Copy)]
pub enum RecordDefect {
    NotWhole {
        bytes: usize,
    },
    TooMany {
        entries: usize,
    },
    Unordered {
        number: usize,
        before: u16,
        quarter: u16,
    },
}

// How many entries of two records agree, and how many are left in the door record and in the panel record.
#[derive(Clone, Copy)]
pub struct Comparison {
    pub agreeing: usize,
    pub left_in_door: usize,
    pub left_in_panel: usize,
}

// An entry that is left, with its number, counted from 1, which is the place behind it.
#[derive(Clone, Copy)]
pub struct LeftEntry {
    pub number: usize,
    pub opening: Opening,
}
