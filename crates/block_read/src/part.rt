// The part of a file that a block's records occupy (specs/BlockRead): the second of block read's two calls. It is empty on a refusal and for block 0.
ghost use Rattle.std.specs.Prelude.{◌<◌, ◌≤◌};
ghost use Rattle.grants_file.specs.Layout.{records_per_block};
ghost use Rattle.grants_file.specs.Block.{count_of};
ghost use Rattle.grants_file.specs.File.{blocks_in, block_at};
ghost use Rattle.block_read.specs.BlockRead.{records_part, part_at, Occupies};

use crate::verdict::block_verdict;
use grants_file::block::count_of;
use grants_file::file::block_at;
use grants_file::layout::{BLOCK_BYTES, RECORD_BYTES, RECORDS_PLACE};

// The part of the file that a block's records occupy.
fn records_part(file: &[u8], number: usize) -> &[u8]
    requires { (number < blocks_in file.now) × (count_of (block_at file.now number) ≤ records_per_block) }
    ensures { Occupies (records_part file.now number) file.entry result }
{
    let count = count_of(block_at(file, number));
    let start = BLOCK_BYTES * number + RECORDS_PLACE;
    let end = start + RECORD_BYTES * count;
    &file[start..end]
}

// The records of an accepted block, handed back as the part of the file that they occupy.
pub fn block_part(file: &[u8], block: u64) -> &[u8]
    ensures { Occupies (part_at file.now block) file.entry result }
{
    let Ok(()) = block_verdict(file, block) else {
        return &file[..0];
    };
    if block == 0 {
        return &file[..0];
    }
    records_part(file, block as usize)
}
