// What a file gives (document 01, "The grants file"): its n, its doors, and the grants of an accepted one, one by one.
ghost use Rattle.std.specs.Prelude.{◌≡◌, ◌+◌, ◌<◌, ◌∷◌, drop};
ghost use Rattle.grants_file.specs.File.{blocks_in, total_in, doors_in, grants_in};
ghost use Rattle.grants_file.specs.FileSets.{Accepted};

use crate::bytes::{be16_at, count_at};
use crate::layout::{
    BLOCK_BYTES, FIRST_DOOR_PLACE, LAST_DOOR_PLACE, RECORD_BYTES, RECORDS_PER_BLOCK, RECORDS_PLACE,
    TOTAL_PLACE,
};
use crate::record::decode_record;
use model::{Grant, Interval};

// Document 01's n.
pub fn total_in(file: &[u8]) -> usize
    requires { 0 < blocks_in file.now }
    ensures { (result ≡ total_in file.now) × (result < 65536) }
{
    count_at(file, TOTAL_PLACE)
}

// The doors that a file says it was cut for.
pub fn doors_in(file: &[u8]) -> Interval
    requires { 0 < blocks_in file.now }
    ensures { result ≡ doors_in file.now }
{
    Interval {
        from: be16_at(file, FIRST_DOOR_PLACE),
        to: be16_at(file, LAST_DOOR_PLACE),
    }
}

// Grant i of an accepted file, from 0 on, across its blocks.
pub fn grant_in(file: &[u8], i: usize) -> Grant
    requires { Accepted file.now × (i < total_in file.now) }
    ensures { drop i (grants_in file.now) ≡ result ∷ drop (i + 1) (grants_in file.now) }
{
    let block = BLOCK_BYTES * (1 + i / RECORDS_PER_BLOCK);
    let record = RECORD_BYTES * (i % RECORDS_PER_BLOCK);
    decode_record(file, block + RECORDS_PLACE + record)
}
