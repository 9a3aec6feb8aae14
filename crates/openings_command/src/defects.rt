// What is wrong in a record, in words for people: the file's name, what is wrong and where, and what to do. A line.
use console::names::put_name;
use console::output::{Stream, Unwritten};
use openings::{ENTRY_BYTES, MAX_ENTRIES, RecordDefect};

fn say_not_whole(out: Stream, bytes: usize) -> Result<(), Unwritten> {
    write!(
        out,
        " is no record of openings: {bytes} bytes are not whole entries of {ENTRY_BYTES} bytes"
    )?;
    let entry = bytes / ENTRY_BYTES + 1;
    write!(
        out,
        "; it breaks off in entry {entry}, or is another kind of file: fetch it again\n"
    )
}

pub fn say_defect(out: Stream, name: &[u8], defect: RecordDefect) -> Result<(), Unwritten> {
    put_name(out, name)?;
    match defect {
        RecordDefect::NotWhole { bytes } => say_not_whole(out, bytes),
        RecordDefect::TooMany { entries: _ } => write!(
            out,
            " has more than {MAX_ENTRIES} entries: hand over both records for a shorter time\n"
        ),
        RecordDefect::Unordered {
            number,
            before,
            quarter,
        } => {
            write!(
                out,
                ", entry {number}: quarter {quarter} stands after quarter {before}"
            )?;
            out.put(
                b", and quarters may not fall: fetch the record again, and have the clock looked at\n",
            )
        }
    }
}
