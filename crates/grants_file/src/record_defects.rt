// What is wrong in the records of a block (specs/Defects), for the doors of their file and the number of the record before them.
ghost use Rattle.std.specs.Prelude.{◌≡◌, ◌+◌, ◌<◌, ◌≤◌};
ghost use Rattle.grants_file.specs.Layout.{records_per_block};
ghost use Rattle.grants_file.specs.Block.{record_in, records_of};
ghost use Rattle.grants_file.specs.Defects.{record_fault, record_defects, records_defects, first_defect};

use crate::bytes::be16_at;
use crate::layout::{BLOCK_BYTES, KIND_PLACE, RECORD_BYTES, RECORDS_PLACE};
use crate::record::decode_record;
use crate::{Defect, RecordFault};
use model::arguments::check_request;
use model::{Interval, RequestFault};

impl From<RequestFault> for RecordFault {
    ghost from_gives = { λ asked wrong. wrong ≡ record_fault asked };

    // As what a fault of grant's arguments is told in a record.
    fn from(asked: RequestFault) -> RecordFault {
        match asked {
            RequestFault::ZeroNumber => RecordFault::NumberOrder,
            RequestFault::UnknownKind => RecordFault::Kind,
            RequestFault::Reversed => RecordFault::Reversed,
            RequestFault::RankTooLow => RecordFault::RankTooLow,
        }
    }
}

// Fault 13's causes in record i, from 0 on.
fn record_defect(
    block: &[u8; BLOCK_BYTES],
    number: usize,
    i: usize,
    doors: Interval,
    last: u16,
) -> Result<(), Defect>
    requires { i < records_per_block }
    ensures { result ≡ first_defect (record_defects doors number (i + 1) last (record_in block.now i)) }
{
    let at = RECORDS_PLACE + RECORD_BYTES * i;
    let g = decode_record(block, at);
    let b = g.bounds;
    let defect = |wrong| Defect::Record {
        block: number,
        place: i + 1,
        number: g.number,
        wrong,
    };
    if g.number <= last {
        return Err(defect(RecordFault::NumberOrder));
    }
    if let Err(asked) = check_request(g.number, g.rank, block[at + KIND_PLACE], b) {
        return Err(defect(RecordFault::from(asked)));
    }
    if !b.doors().overlaps(doors) {
        return Err(defect(RecordFault::Doors));
    }
    Ok(())
}

// The first defect of the first `count` records.
pub fn records_defect(
    block: &[u8; BLOCK_BYTES],
    number: usize,
    count: usize,
    doors: Interval,
    before: u16,
) -> Result<(), Defect>
    requires { count ≤ records_per_block }
    ensures { result ≡ first_defect (records_defects doors number 1 before (records_of block.now count)) }
{
    let mut last = before;
    for i in 0..count {
        record_defect(block, number, i, doors, last)?;
        last = be16_at(block, RECORDS_PLACE + RECORD_BYTES * i);
    }
    Ok(())
}
