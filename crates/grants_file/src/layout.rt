// Where everything stands in a grants file (document 01, "The grants file"; specs/Layout). The one file of code that names a size or a place.
ghost use Rattle.std.specs.Prelude.{◌≡◌};
ghost use Rattle.grants_file.specs.Layout.{magic_of};

pub const BLOCK_BYTES: usize = 512;

pub const MAX_BLOCKS: usize = 68;

// The bytes of the longest file.
pub const MAX_BYTES: usize = BLOCK_BYTES * MAX_BLOCKS;

// The last byte of the mark: this form, and the one before it, whose quarters were closed.
pub const CURRENT_FORM: u8 = 0x32;

pub const OLDER_FORM: u8 = 0x31;

// The mark of a form, at a block's start.
pub const fn magic_of(form: u8) -> [u8; 4]
    ensures { result ≡ magic_of form }
{
    [0x4C, 0x47, 0x46, form]
}

// In every block: its number, and its check.
pub const NUMBER_PLACE: usize = 4;

pub const CHECKSUM_PLACE: usize = 510;

// In block 0: n, the doors, and where its fill begins.
pub const TOTAL_PLACE: usize = 6;

pub const FIRST_DOOR_PLACE: usize = 8;

pub const LAST_DOOR_PLACE: usize = 10;

pub const HEADER_END: usize = 12;

// In another block: its record count, and its records.
pub const COUNT_PLACE: usize = 6;

pub const RECORDS_PLACE: usize = 8;

pub const RECORD_BYTES: usize = 16;

pub const RECORDS_PER_BLOCK: usize = 31;

// The record that fills a block.
pub const LAST_RECORD_PLACE: usize = RECORDS_PLACE + RECORD_BYTES * (RECORDS_PER_BLOCK - 1);

// In a record, behind the grant's number: its rank, its kind, and its six values in cell order.
pub const RANK_PLACE: usize = 2;

pub const KIND_PLACE: usize = 3;

pub const STAFF_FROM_PLACE: usize = 4;

pub const STAFF_TO_PLACE: usize = 6;

pub const DOOR_FROM_PLACE: usize = 8;

pub const DOOR_TO_PLACE: usize = 10;

pub const QUARTER_FROM_PLACE: usize = 12;

pub const QUARTER_TO_PLACE: usize = 14;
