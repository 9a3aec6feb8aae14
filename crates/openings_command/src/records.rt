// Reads a record whole, and tells what is wrong in it.
use crate::defects::say_defect;
use atomic_file::first;
use atomic_file::reading::read;
use console::names::warn_unread;
use console::output::answers;
use console::status::{Ending, answered};
use openings::defects::record_defect;
use openings::{ENTRY_BYTES, MAX_ENTRIES};

// One entry more than a record may have, so that a longer file is seen to have too many.
pub const ROOM: usize = MAX_ENTRIES * ENTRY_BYTES + ENTRY_BYTES;

// A sound record, read into the lent bytes; or how the command ends, once what was wrong has been told.
pub fn read_record<'a>(
    rt: HostRuntime,
    name: &[u8],
    lent: &'a mut [u8],
) -> Result<&'a [u8], Ending> {
    let n = match read(rt, name, lent) {
        Ok(n) => n,
        Err(failure) => {
            warn_unread(rt, name, failure);
            return Err(Ending::Failed);
        }
    };
    let record = first(lent, n);
    match record_defect(record) {
        Ok(()) => Ok(record),
        Err(defect) => Err(answered(say_defect(answers(rt), name, defect), Ending::No)),
    }
}
