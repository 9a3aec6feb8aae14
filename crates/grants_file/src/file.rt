// The blocks of a file (document 01, "The grants file"), of any bytes.
ghost use Rattle.std.specs.Prelude.{◌≡◌, ◌<◌, ◌≤◌};
ghost use Rattle.grants_file.specs.Layout.{max_blocks, records_per_block};
ghost use Rattle.grants_file.specs.File.{blocks_for, count_in, blocks_in, block_at, wrong_block_count};

use crate::layout::{BLOCK_BYTES, MAX_BLOCKS, RECORDS_PER_BLOCK};

// The whole blocks that a file's length holds.
pub fn blocks_in(file: &[u8]) -> usize
    ensures { result ≡ blocks_in file.now }
{
    file.len() / BLOCK_BYTES
}

// The bytes of a block.
pub fn block_at(file: &[u8], block: usize) -> &[u8; BLOCK_BYTES]
    requires { block < blocks_in file.now }
    ensures { result.now ≡ block_at file.now block }
{
    file[BLOCK_BYTES * block..].first_chunk().unwrap()
}

// Fault 10's cause: not 1 to 68 whole blocks.
#[tactic(auto, unfolding(crate::specs::File::wrong_block_count))]
pub fn wrong_block_count(file: &[u8]) -> bool
    ensures { result ≡ wrong_block_count file.now }
{
    if file.len() % BLOCK_BYTES != 0 {
        return true;
    }
    let blocks = blocks_in(file);
    blocks == 0 || MAX_BLOCKS < blocks
}

// The blocks of a file of so many grants.
pub fn blocks_for(total: usize) -> usize
    requires { total < 65536 }
    ensures { result ≡ blocks_for total }
{
    1 + (total + (RECORDS_PER_BLOCK - 1)) / RECORDS_PER_BLOCK
}

// The records that a block holds, of the file's total.
pub fn count_in(total: usize, block: usize) -> usize
    requires { (0 < block) × (block ≤ max_blocks) }
    ensures { (result ≡ count_in total block) × (result ≤ records_per_block) }
{
    let before = RECORDS_PER_BLOCK * (block - 1);
    total.saturating_sub(before).min(RECORDS_PER_BLOCK)
}
