// What is wrong in a record (specs/Defects).
ghost use Rattle.std.specs.Prelude.{◌≡◌};
ghost use Rattle.openings.specs.Defects.{first_fall, size_defect, order_defect, openings_defect};

use crate::entries::{entries_in, entry_at, quarter_of};
use crate::{ENTRY_BYTES, MAX_ENTRIES, RecordDefect};

// What is wrong in the number of the bytes.
pub(crate) fn size_defect(bytes: &[u8]) -> Result<(), RecordDefect>
    ensures { result ≡ size_defect bytes.now }
{
    if bytes.len() % ENTRY_BYTES != 0 {
        return Err(RecordDefect::NotWhole { bytes: bytes.len() });
    }
    let count = entries_in(bytes);
    if MAX_ENTRIES < count {
        return Err(RecordDefect::TooMany { entries: count });
    }
    Ok(())
}

// What is wrong in the order of the quarters: the first one that is below the one before it.
pub(crate) fn order_defect(bytes: &[u8]) -> Result<(), RecordDefect>
    ensures { result ≡ order_defect bytes.now (first_fall bytes.now) }
{
    let mut before = 0;
    for place in 0..entries_in(bytes) {
        let quarter = quarter_of(entry_at(bytes, place));
        if quarter < before {
            return Err(RecordDefect::Unordered {
                number: place + 1,
                before,
                quarter,
            });
        }
        before = quarter;
    }
    Ok(())
}

// What is wrong in any bytes that are to be a record.
pub fn record_defect(bytes: &[u8]) -> Result<(), RecordDefect>
    ensures { result ≡ openings_defect bytes.now }
{
    size_defect(bytes)?;
    order_defect(bytes)
}
