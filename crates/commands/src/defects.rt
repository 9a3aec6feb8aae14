// What is wrong in a file, in words for a clerk: document 01's number of the fault, what is wrong and where, and what to do. A line.
use crate::common::Grants;
use crate::messages::Seniority;
use console::output::{Stream, Unwritten};
use grants_file::{Defect, RecordFault};
use model::Fault;
use model::faults::fault_number;
use std::fmt;

// Fault 13's causes: a sentence for each, so that a new one can't be passed over.
#[derive(Clone, Copy)]
struct RecordCause(RecordFault);

impl fmt::Display for RecordCause {
    fn fmt<W: fmt::Write>(&self, f: &mut fmt::Formatter<W>) -> fmt::Result {
        match self.0 {
            RecordFault::NumberOrder => {
                f.write_str(
                    "its number is 0 or not above the one before it; ask for the file again",
                )
            }
            RecordFault::Kind => {
                f.write_str("its kind is neither 0 (bars) nor 1 (opens); ask for the file again")
            }
            RecordFault::Reversed => f.write_str(
                "one of its ranges starts above its end, or its quarters end where they start; ask for the file again",
            ),
            RecordFault::RankTooLow => {
                write!(
                    f,
                    "{Seniority}; have it corrected, then ask for the file again"
                )
            }
            RecordFault::Doors => {
                f.write_str("its doors don't touch the file's doors; ask for the file again")
            }
        }
    }
}

// What is wrong and where, and what to do: a sentence for each defect.
#[derive(Clone, Copy)]
struct Cause(Defect);

impl fmt::Display for Cause {
    fn fmt<W: fmt::Write>(&self, f: &mut fmt::Formatter<W>) -> fmt::Result {
        match self.0 {
            Defect::Length => {
                f.write_str("the file is not 1 to 68 whole blocks of 512 bytes; ask for it again")
            }
            Defect::Checksum { block } => {
                write!(
                    f,
                    "block {block} is damaged, its check is wrong; ask for the file again"
                )
            }
            Defect::Mark { block, older: true } => write!(
                f,
                "block {block} begins with LGF1: it is of the older form, whose quarters end otherwise; cut the file anew"
            ),
            Defect::Mark {
                block,
                older: false,
            } => write!(
                f,
                "block {block} doesn't begin with LGF2, so this is no grants file; ask for the right one"
            ),
            Defect::BlockNumber { block } => {
                write!(
                    f,
                    "block {block} carries another block's number; ask for the file again"
                )
            }
            Defect::TooManyGrants { total } => write!(
                f,
                "block 0 counts {}, more than the 2048 that a file may hold; ask for the file again",
                Grants(total)
            ),
            Defect::BlockCount { total, blocks } => write!(
                f,
                "block 0 counts {}, but the file has {blocks} blocks, more or fewer than they take; ask for it again",
                Grants(total)
            ),
            Defect::RecordCount { block } => write!(
                f,
                "block {block} counts more or fewer records than it should hold; ask for the file again"
            ),
            Defect::DoorOrder { from, to } => write!(
                f,
                "block 0 has its first door, {from}, above its last, {to}; ask for the file again"
            ),
            Defect::Padding { block } => {
                write!(
                    f,
                    "block {block} isn't zero where it should be empty; ask for the file again"
                )
            }
            Defect::Record {
                block,
                place,
                number,
                wrong,
            } => write!(
                f,
                "block {block}, record {place}, grant {number}: {}",
                RecordCause(wrong)
            ),
        }
    }
}

// The line of a file: that it is sound, or its defect.
pub fn say_verdict(out: Stream, verdict: Result<(), Defect>) -> Result<(), Unwritten> {
    let Err(defect) = verdict else {
        return out.put(b"sound\n");
    };
    let number = fault_number(Fault::from(defect));
    write!(out, "refused {number}: {}\n", Cause(defect))
}
