// The tests of one block (document 01, "The grants file" and "Faults"), over its 512 bytes; each is one of specs/Block.
ghost use Rattle.std.specs.Prelude.{◌≡◌, ◌<◌};
ghost use Rattle.grants_file.specs.Block.{count_of, has_form, wrong_checksum, wrong_padding};

use crate::bytes::{be16_at, count_at};
use crate::layout::{BLOCK_BYTES, CHECKSUM_PLACE, COUNT_PLACE, magic_of};
use checksum::checksum;

// The record count of a block.
pub fn count_of(block: &[u8; BLOCK_BYTES]) -> usize
    ensures { (result ≡ count_of block.now) × (result < 65536) }
{
    count_at(block, COUNT_PLACE)
}

// Fault 12's cause.
#[tactic(auto, unfolding(crate::specs::Block::wrong_checksum))]
pub fn wrong_checksum(block: &[u8; BLOCK_BYTES]) -> bool
    ensures { result ≡ wrong_checksum block.now }
{
    be16_at(block, CHECKSUM_PLACE) != checksum(&block[..CHECKSUM_PLACE])
}

// Whether the mark is that of a form.
pub fn has_form(block: &[u8; BLOCK_BYTES], form: u8) -> bool
    ensures { result ≡ has_form block.now form }
{
    block.starts_with(&magic_of(form))
}

// A byte of the fill, from a place on, is not zero.
pub fn wrong_padding(block: &[u8; BLOCK_BYTES], start: usize) -> bool
    ensures { result ≡ wrong_padding block.now start }
{
    !block[..CHECKSUM_PLACE]
        .iter()
        .skip(start)
        .all(|byte| *byte == 0)
}
