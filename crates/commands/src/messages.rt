// A fault in words: its number, what is wrong, and what to do about it. The number is proved to be the fault's; the sentences are prose.
use model::Fault;
use model::faults::fault_number;
use model::seniority::{MAX_JUNIOR_DOORS, SENIOR_RANK};
use std::fmt;

// What a wide grant needs.
#[derive(Clone, Copy)]
pub struct Seniority;

impl fmt::Display for Seniority {
    fn fmt<W: fmt::Write>(&self, f: &mut fmt::Formatter<W>) -> fmt::Result {
        write!(
            f,
            "a grant for more than {MAX_JUNIOR_DOORS} doors needs rank {SENIOR_RANK} or above"
        )
    }
}

// A sentence for each fault, so that a new fault can't be passed over.
#[derive(Clone, Copy)]
struct Advice(Fault);

impl fmt::Display for Advice {
    fn fmt<W: fmt::Write>(&self, f: &mut fmt::Formatter<W>) -> fmt::Result {
        match self.0 {
            Fault::BadPool => f.write_str(
                "the pool in memory is not an index: load the bank's file again",
            ),
            Fault::Reversed => f.write_str(
                "a range starts above its end, or the quarters end where they start: put the lower number first; \
                 the quarter to is the first that isn't covered",
            ),
            Fault::ZeroNumber => f.write_str(
                "0 is not a grant's number: number grants from 1 to 65535",
            ),
            Fault::UnknownKind => f.write_str(
                "the kind is neither 0 nor 1: write 0 for bars, 1 for opens",
            ),
            Fault::AlreadyLive => f.write_str(
                "a grant has this number already: revoke it first, or take another number",
            ),
            Fault::Full => f.write_str("no cell is free: revoke a grant first, or split the bank"),
            Fault::NotLive => f.write_str(
                "no grant has this number: list the grants to find the right one",
            ),
            Fault::ListTooShort { needed } => write!(
                f,
                "the answer has {needed} grants, more than the list holds: ask about fewer doors or quarters"
            ),
            Fault::BrokenLinks => f.write_str(
                "the pool in memory is damaged: load the bank's file again",
            ),
            Fault::BadLength => {
                f.write_str(
                    "the file is not 1 to 68 whole blocks, or has no such block: ask for the file again",
                )
            }
            Fault::BadLayout { block } => {
                write!(
                    f,
                    "block {block} is not laid out as a grants file's block: ask for the file again"
                )
            }
            Fault::BadChecksum { block } => {
                write!(
                    f,
                    "block {block} is damaged: its check is wrong; ask for the file again"
                )
            }
            Fault::BadRecord { block } => {
                write!(
                    f,
                    "block {block} holds a grant that the file may not hold: ask for the file again"
                )
            }
            Fault::BufferTooShort { needed } => {
                write!(
                    f,
                    "the file takes {needed} bytes, more than there is room for: cut fewer doors"
                )
            }
            Fault::RankTooLow => {
                write!(
                    f,
                    "{Seniority}: let a supervisor give it that rank, or name fewer doors"
                )
            }
            Fault::BadOpeningsLength => f.write_str(
                "a record of openings is not up to 4096 whole entries of 8 bytes: ask for the record again",
            ),
            Fault::UnorderedQuarters => {
                f.write_str("a record of openings goes back in time: ask for the record again")
            }
        }
    }
}

// A refusal as a sentence, without its newline.
#[derive(Clone, Copy)]
pub struct Refusal(pub Fault);

impl fmt::Display for Refusal {
    fn fmt<W: fmt::Write>(&self, f: &mut fmt::Formatter<W>) -> fmt::Result {
        write!(f, "refused {}: {}", fault_number(self.0), Advice(self.0))
    }
}
