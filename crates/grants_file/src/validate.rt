// What exactly is wrong in a file (specs/Defects): the first defect, in document 01's order (10, then per block rising 12, 11, 13).
// It stops at the first block that is refused.
ghost use Rattle.std.specs.Prelude.{◌≡◌, suc, ◌<◌};
ghost use Rattle.grants_file.specs.File.{blocks_in};
ghost use Rattle.grants_file.specs.Defects.{header_defects, last_before, content_defects, first_defect, defect_in};
ghost use Rattle.grants_file.specs.Answers.{JudgedBlock, block_answer};

use crate::Defect;
use crate::block::count_of;
use crate::block_defects::{layout_defect, padding_defect, start_defect};
use crate::bytes::be16_at;
use crate::file::{block_at, blocks_for, blocks_in, count_in, wrong_block_count};
use crate::grants::{doors_in, total_in};
use crate::layout::{HEADER_END, LAST_RECORD_PLACE};
use crate::record_defects::records_defect;
use model::{Interval, MAX_GRANTS};

// Block 0 behind its start: n, the block count, the doors and the fill.
#[tactic(auto, unfolding(crate::specs::Defects::first_defect))]
fn header_defect(file: &[u8]) -> Result<(), Defect>
    requires { 0 < blocks_in file.now }
    ensures { result ≡ first_defect (header_defects file.now) }
{
    let total = total_in(file);
    if MAX_GRANTS < total {
        return Err(Defect::TooManyGrants { total });
    }
    let blocks = blocks_in(file);
    if blocks != blocks_for(total) {
        return Err(Defect::BlockCount { total, blocks });
    }
    let Interval { from, to } = doors_in(file);
    if to < from {
        return Err(Defect::DoorOrder { from, to });
    }
    padding_defect(block_at(file, 0), 0, HEADER_END)
}

// A block behind its start, for the number of the last record before it. Its record count is held against n.
fn content_defect(file: &[u8], number: usize, last: u16) -> Result<(), Defect>
    requires { JudgedBlock file.now number last }
    ensures { result ≡ first_defect (content_defects file.now number) }
{
    if number == 0 {
        return header_defect(file);
    }
    let block = block_at(file, number);
    let due = count_in(total_in(file), number);
    layout_defect(block, number, count_of(block) != due)?;
    records_defect(block, number, due, doors_in(file), last)
}

// The number that the records of the next block must be above. A block that another follows is full.
fn last_in(file: &[u8], number: usize) -> u16
    requires { number < blocks_in file.now }
    ensures { result ≡ last_before file.now (suc number) }
{
    if number == 0 {
        return 0;
    }
    be16_at(block_at(file, number), LAST_RECORD_PLACE)
}

// The answer of a block, for the number of the last record before it: that of the last record in it, or what is wrong.
fn block_answer(file: &[u8], number: usize, last: u16) -> Result<u16, Defect>
    requires { JudgedBlock file.now number last }
    ensures { result ≡ block_answer file.now number }
{
    start_defect(block_at(file, number), number)?;
    content_defect(file, number, last)?;
    Ok(last_in(file, number))
}

// What is wrong in any bytes as a file.
pub fn validate(file: &[u8]) -> Result<(), Defect>
    ensures { result ≡ defect_in file.now }
{
    if wrong_block_count(file) {
        return Err(Defect::Length);
    }
    let mut last: u16 = 0;
    for i in 0..blocks_in(file) {
        let answer = block_answer(file, i, last);
        let Ok(next) = answer else {
            return answer.and(Ok(()));
        };
        last = next;
    }
    Ok(())
}
