// The entries of a record that are left when it is held against the other, a line each.
use calendar::Date;
use console::output::{Stream, Unwritten};
use opening_rows::opening_row;
use openings::LeftEntry;
use openings::left::left_from;

// So many are shown; of the others it is said how many there are.
const SHOWN: usize = 20;

fn say_entry(out: Stream, entry: LeftEntry, base: Option<Date>) -> Result<(), Unwritten> {
    out.put(opening_row(base, entry.number, entry.opening).as_slice())
}

// The first that are left, in the record's order. An entry's number counts from 1, and so is the place behind it.
fn say_first(
    out: Stream,
    record: &[u8],
    other: &[u8],
    base: Option<Date>,
) -> Result<(), Unwritten> {
    let mut from: usize = 0;
    for _ in 0..SHOWN {
        let Some(entry) = left_from(record, other, from) else {
            break;
        };
        say_entry(out, entry, base)?;
        from = entry.number;
    }
    Ok(())
}

// A head and the entries that are left in one of the records, where any are.
pub fn say_left(
    out: Stream,
    side: &str,
    left: usize,
    record: &[u8],
    other: &[u8],
    base: Option<Date>,
) -> Result<(), Unwritten> {
    if left == 0 {
        return Ok(());
    }
    write!(out, "left in the {side} record:\n")?;
    say_first(out, record, other, base)?;
    if SHOWN < left {
        let more = left - SHOWN;
        write!(out, "  and {more} more\n")?;
    }
    Ok(())
}
