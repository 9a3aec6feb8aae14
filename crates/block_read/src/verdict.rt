// The verdict on one block (specs/BlockRead): the first of block read's two calls.
ghost use Rattle.std.specs.Prelude.{◌≡◌, ◌<◌};
ghost use Rattle.model.specs.Answer.{outcome_answer};
ghost use Rattle.grants_file.specs.File.{blocks_in};
ghost use Rattle.grants_file.specs.Defects.{first_defect};
ghost use Rattle.block_read.specs.BlockRead.{not_in_file, wrong_count, read_defects, block_call};

use grants_file::Defect;
use grants_file::block::count_of;
use grants_file::block_defects::{layout_defect, padding_defect, start_defect};
use grants_file::file::{block_at, blocks_in, wrong_block_count};
use grants_file::layout::{HEADER_END, RECORDS_PER_BLOCK};
use model::Fault;

// Fault 10's cause.
#[tactic(auto, unfolding(crate::specs::BlockRead::not_in_file))]
fn not_in_file(file: &[u8], block: u64) -> bool
    ensures { result ≡ not_in_file file.now block }
{
    wrong_block_count(file) || blocks_in(file) as u64 <= block
}

// Not 31 records, or not 1 to 31 in the last block that the file's length holds.
#[tactic(auto, unfolding(crate::specs::BlockRead::wrong_count))]
fn wrong_count(file: &[u8], block: usize) -> bool
    requires { block < blocks_in file.now }
    ensures { result ≡ wrong_count file.now block }
{
    let count = count_of(block_at(file, block));
    if block + 1 != blocks_in(file) {
        return count != RECORDS_PER_BLOCK;
    }
    count == 0 || RECORDS_PER_BLOCK < count
}

// What is wrong in a block alone: nothing of its records, n or doors is tested.
fn read_defect(file: &[u8], number: usize) -> Result<(), Defect>
    requires { number < blocks_in file.now }
    ensures { result ≡ first_defect (read_defects file.now number) }
{
    let block = block_at(file, number);
    start_defect(block, number)?;
    if number == 0 {
        return padding_defect(block, number, HEADER_END);
    }
    layout_defect(block, number, wrong_count(file, number))
}

// The verdict on a block: 10, 12, 11 or accepted.
pub fn block_verdict(file: &[u8], block: u64) -> Result<(), Fault>
    ensures { outcome_answer result ≡ (block_call file.now block).answer }
{
    if not_in_file(file, block) {
        return Err(Fault::BadLength);
    }
    read_defect(file, block as usize)?;
    Ok(())
}
