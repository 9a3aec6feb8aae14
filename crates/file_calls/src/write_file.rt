// A file of the grants in given cells, written into lent bytes block by block (document 01, "The grants file").
ghost use Rattle.std.specs.Prelude.{◌≡◌, ◌+◌, ◌*◌, ◌≤◌, length, take, drop};
ghost use mathlib.Core.List.{◌++◌, flat_map};
ghost use Rattle.std.proofs.lemmas.List.Edits.{sets};
ghost use Rattle.lists.specs.Overwrite.{overwrite};
ghost use Rattle.model.specs.Limits.{max_grants};
ghost use Rattle.pool.specs.Capacity.{InPool};
ghost use Rattle.pool.specs.Cell.{grant_at};
ghost use Rattle.grants_file.specs.Layout.{record_bytes, block_bytes, records_place, records_per_block};
ghost use Rattle.grants_file.specs.Record.{encode_record};
ghost use Rattle.grants_file.specs.Block.{header_block, record_block};
ghost use Rattle.grants_file.specs.File.{blocks_for, chunk, file_of};
ghost use Rattle.steps.specs.Hits.{Cells, grants_at};
ghost use Rattle.file_calls.specs.RecordBlocks.{BlockOfCells, records_file};

use grants_file::file::{blocks_for, count_in};
use grants_file::layout::{BLOCK_BYTES, RECORD_BYTES, RECORDS_PER_BLOCK, RECORDS_PLACE};
use grants_file::record::encode_record;
use grants_file::write_block::{seal, start_block, write_header};
use pool::cell::grant_at;

// The record of the grant in a cell, whole, at a place of the block.
fn write_record(pool: &[u16], cell: usize, block: &mut [u8], at: usize)
    requires { InPool pool.now cell × (at + record_bytes ≤ length block.old) }
    ensures { block.new ≡ sets block.old at (encode_record (grant_at pool.now cell)) }
{
    let g = grant_at(pool, cell);
    encode_record(block, at, g);
}

// The records of the grants in a block's cells.
fn write_records(pool: &[u16], cells: &[u16], block: &mut [u8; BLOCK_BYTES])
    requires { Cells pool.now cells.now × (length cells.now ≤ records_per_block) }
    ensures { block.new ≡ sets block.old records_place (flat_map encode_record (grants_at pool.now cells.now)) }
{
    for (i, cell) in cells.iter().enumerate() {
        let at = RECORDS_PLACE + RECORD_BYTES * i;
        write_record(pool, usize::from(*cell), block, at);
    }
}

// A block of records, of a file of the grants in the cells.
fn write_block(pool: &[u16], cells: &[u16], number: usize, block: &mut [u8; BLOCK_BYTES])
    requires { BlockOfCells pool.now cells.now number }
    ensures { block.new ≡ record_block number (chunk number (grants_at pool.now cells.now)) }
{
    let first = RECORDS_PER_BLOCK * (number - 1);
    let count = count_in(cells.len(), number);
    start_block(block, number as u16, count as u16);
    write_records(pool, &cells[first..first + count], block);
    seal(block, RECORDS_PLACE + RECORD_BYTES * count);
}

// The same at the start of longer bytes.
fn write_first(pool: &[u16], cells: &[u16], number: usize, bytes: &mut [u8])
    requires { BlockOfCells pool.now cells.now number × (block_bytes ≤ length bytes.old) }
    ensures { bytes.new ≡ record_block number (chunk number (grants_at pool.now cells.now)) ++ drop block_bytes bytes.old }
{
    let block = bytes.first_chunk_mut().unwrap();
    write_block(pool, cells, number, block);
}

// The same at its place in the file.
fn write_at(pool: &[u16], cells: &[u16], number: usize, bytes: &mut [u8])
    requires { BlockOfCells pool.now cells.now number × (block_bytes * blocks_for (length cells.now) ≤ length bytes.old) }
    ensures { bytes.new
        ≡ take (block_bytes * number) bytes.old
        ++ (record_block number (chunk number (grants_at pool.now cells.now))
        ++ drop (block_bytes * number + block_bytes) bytes.old) }
{
    write_first(pool, cells, number, &mut bytes[BLOCK_BYTES * number..]);
}

// The blocks of records, behind block 0.
fn write_blocks(pool: &[u16], cells: &[u16], bytes: &mut [u8])
    requires { Cells pool.now cells.now × (block_bytes * blocks_for (length cells.now) ≤ length bytes.old) }
    ensures { bytes.new
        ≡ overwrite (take block_bytes bytes.old ++ records_file (grants_at pool.now cells.now) (length cells.now))
        bytes.old }
{
    for i in 1..blocks_for(cells.len()) {
        write_at(pool, cells, i, bytes);
    }
}

// Block 0 at the start of longer bytes.
fn write_front(total: usize, from: u16, to: u16, bytes: &mut [u8])
    requires { (total ≤ max_grants) × (block_bytes ≤ length bytes.old) }
    ensures { bytes.new ≡ header_block total (record { from = from; to = to }) ++ drop block_bytes bytes.old }
{
    let block = bytes.first_chunk_mut().unwrap();
    write_header(block, total as u16, from, to);
}

// The file of the grants in the cells.
pub fn write_file(pool: &[u16], cells: &[u16], from: u16, to: u16, bytes: &mut [u8])
    requires { Cells pool.now cells.now × (block_bytes * blocks_for (length cells.now) ≤ length bytes.old) }
    ensures { bytes.new
        ≡ overwrite (file_of (record { from = from; to = to }) (grants_at pool.now cells.now)) bytes.old }
{
    write_front(cells.len(), from, to, bytes);
    write_blocks(pool, cells, bytes);
}
