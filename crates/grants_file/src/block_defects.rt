// What is wrong in one block, but for its records (specs/Defects): the whole file's validation and block read stand on these.
// The first defect answers, in document 01's order.
ghost use Rattle.std.specs.Prelude.{◌≡◌};
ghost use Rattle.grants_file.specs.Defects.{start_defects, padding_defects, layout_defects, first_defect};

use crate::Defect;
use crate::block::{count_of, has_form, wrong_checksum, wrong_padding};
use crate::bytes::count_at;
use crate::layout::{
    BLOCK_BYTES, CURRENT_FORM, NUMBER_PLACE, OLDER_FORM, RECORD_BYTES, RECORDS_PLACE,
};

// The check, the mark and the number of a block.
#[tactic(auto, unfolding(crate::specs::Defects::first_defect))]
pub fn start_defect(block: &[u8; BLOCK_BYTES], number: usize) -> Result<(), Defect>
    ensures { result ≡ first_defect (start_defects block.now number) }
{
    if wrong_checksum(block) {
        return Err(Defect::Checksum { block: number });
    }
    if !has_form(block, CURRENT_FORM) {
        let older = has_form(block, OLDER_FORM);
        return Err(Defect::Mark {
            block: number,
            older,
        });
    }
    if count_at(block, NUMBER_PLACE) != number {
        return Err(Defect::BlockNumber { block: number });
    }
    Ok(())
}

// The fill of a block, from a place on.
#[tactic(auto, unfolding(crate::specs::Defects::first_defect))]
pub fn padding_defect(block: &[u8; BLOCK_BYTES], number: usize, start: usize) -> Result<(), Defect>
    ensures { result ≡ first_defect (padding_defects block.now number start) }
{
    if wrong_padding(block, start) {
        return Err(Defect::Padding { block: number });
    }
    Ok(())
}

// The record count of a block, by the caller's test of it, and the fill behind its records.
#[tactic(auto, unfolding(crate::specs::Defects::first_defect))]
pub fn layout_defect(
    block: &[u8; BLOCK_BYTES],
    number: usize,
    miscounted: bool,
) -> Result<(), Defect>
    ensures { result ≡ first_defect (layout_defects block.now number miscounted) }
{
    if miscounted {
        return Err(Defect::RecordCount { block: number });
    }
    padding_defect(
        block,
        number,
        RECORDS_PLACE + RECORD_BYTES * count_of(block),
    )
}
