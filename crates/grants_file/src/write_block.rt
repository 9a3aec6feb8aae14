// Blocks written into lent bytes (document 01, "The grants file"), each over its 512 bytes.
// A caller starts a block, stores its records behind the start, and seals it.
ghost use Rattle.std.specs.Prelude.{◌≡◌, ◌-◌, ◌≤◌, ◌++◌, take, replicate};
ghost use Rattle.std.proofs.lemmas.List.Edits.{sets};
ghost use Rattle.grants_file.specs.Bytes.{be16};
ghost use Rattle.grants_file.specs.Layout.{checksum_place, magic};
ghost use Rattle.grants_file.specs.Block.{sealed, header_block};

use crate::bytes::put_be16;
use crate::layout::{
    BLOCK_BYTES, CHECKSUM_PLACE, COUNT_PLACE, CURRENT_FORM, FIRST_DOOR_PLACE, HEADER_END,
    LAST_DOOR_PLACE, NUMBER_PLACE, magic_of,
};
use checksum::checksum;

// Zeros from a place on up to the check.
fn clear_padding(block: &mut [u8; BLOCK_BYTES], start: usize)
    requires { start ≤ checksum_place }
    ensures { block.new ≡ sets block.old start (replicate (checksum_place - start) 0) }
{
    block[start..CHECKSUM_PLACE].fill(0);
}

// Fills a block from a place on, and stores its check.
#[tactic(auto, using(crate::proofs::WriteBlockSteps::seal_block))]
pub fn seal(block: &mut [u8; BLOCK_BYTES], start: usize)
    requires { start ≤ checksum_place }
    ensures { block.new ≡ sealed (take start block.old) }
{
    clear_padding(block, start);
    let check = checksum(&block[..CHECKSUM_PLACE]);
    put_be16(block, CHECKSUM_PLACE, check);
}

// Document 01's mark.
fn put_magic(block: &mut [u8; BLOCK_BYTES])
    ensures { block.new ≡ sets block.old 0 magic }
{
    let magic = magic_of(CURRENT_FORM);
    block[..magic.len()].copy_from_slice(&magic);
}

// The mark, the block's number and the count that follows it.
pub fn start_block(block: &mut [u8; BLOCK_BYTES], number: u16, count: u16)
    ensures { block.new ≡ sets block.old 0 (magic ++ be16 number ++ be16 count) }
{
    put_magic(block);
    put_be16(block, NUMBER_PLACE, number);
    put_be16(block, COUNT_PLACE, count);
}

// Block 0 of a file of so many grants.
pub fn write_header(block: &mut [u8; BLOCK_BYTES], total: u16, from: u16, to: u16)
    ensures { block.new ≡ header_block total (record { from = from; to = to }) }
{
    start_block(block, 0, total);
    put_be16(block, FIRST_DOOR_PLACE, from);
    put_be16(block, LAST_DOOR_PLACE, to);
    seal(block, HEADER_END);
}
