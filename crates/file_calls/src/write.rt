// write: the file of the live grants that touch the doors, from the lent bytes' start (document 01, "The grants file").
// Refuses by 1, 2, 9, then 14, and writes nothing before that. Grants go whole: nothing is cut to the doors.
ghost use Rattle.model.specs.Answer.{written_answer};
ghost use Rattle.calls.specs.FileCalls.{write_call};
ghost use Rattle.calls.specs.Contract.{Lends};

use crate::write_file::write_file;
use adt::predicates::Predicate;
use geometry::range::range_of_doors;
use grants_file::file::blocks_for;
use grants_file::layout::BLOCK_BYTES;
use model::{Fault, Interval};
use pool::layout::{MAX_CAPACITY, capacity};
use steps::hits::find_hits;
use steps::sorted_cells::sort_cells;

pub fn write(pool: &[u16], door_from: u16, door_to: u16, bytes: &mut [u8]) -> Result<usize, Fault>
    ensures { Lends (written_answer result) bytes.new
        (write_call pool.now (record { from = door_from; to = door_to }) bytes.old) }
{
    let cells = capacity(pool).ok_or(Fault::BadPool)?;
    if door_to < door_from {
        return Err(Fault::Reversed);
    }
    let range = range_of_doors(Interval {
        from: door_from,
        to: door_to,
    });
    let mut hits = [0u16; MAX_CAPACITY];
    // Not by `?`: a must-fail edit changes what is returned here, and nothing else.
    let Ok(found) = find_hits(pool, cells, &range, Predicate::InRange, &mut hits) else {
        return Err(Fault::BrokenLinks);
    };
    let needed = BLOCK_BYTES * blocks_for(found);
    if bytes.len() < needed {
        return Err(Fault::BufferTooShort { needed });
    }
    let mut sorted = [0u16; MAX_CAPACITY];
    let sorted = &mut sorted[..found];
    sort_cells(pool, &hits[..found], sorted);
    write_file(pool, sorted, door_from, door_to, bytes);
    Ok(needed)
}
