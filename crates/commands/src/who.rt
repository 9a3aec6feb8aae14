// The panel's screens of who may open a door at a quarter.
use crate::common::{say_fault, say_moment};
use crate::shown::{Asked, Bank, Pending, SCREEN, say_more};
use console::output::{Stream, Unwritten};
use panel::rows::touching_row;
use panel::touching::touching_at;

// The heads of the rows of `who`.
pub fn say_who(out: Stream, bank: Bank, door: u16, quarter: u16) -> Result<(), Unwritten> {
    write!(out, "door {door}, quarter ")?;
    say_moment(out, bank.base, quarter)?;
    out.put(b"\n  number    rank   staff      to   until  day and time      does\n")
}

// How many grants there were, once all have been shown.
fn say_total(out: Stream, rows: usize) -> Result<(), Unwritten> {
    if rows == 0 {
        return out.put(b"no grant: nobody may open it\n\n");
    }
    write!(out, "{rows} in all\n")?;
    out.put(b"in part: a higher grant decides for some of its staff, so ask may\n")?;
    out.put(b"OVERRIDDEN: higher grants decide for all its staff, so do not act on it\n\n")
}

// One row, or the end of the answer: whether there was such a row.
fn say_row(out: Stream, bank: Bank, door: u16, quarter: u16, i: usize) -> Result<bool, Unwritten> {
    match touching_at(bank.pool, door, quarter, i) {
        Ok(Some(touching)) => {
            out.put(touching_row(touching.grant, touching.precedence, bank.base).as_slice())?;
            Ok(true)
        }
        Ok(None) => {
            say_total(out, i)?;
            Ok(false)
        }
        Err(fault) => {
            say_fault(out, fault)?;
            Ok(false)
        }
    }
}

// The end of a screen: that there is more, or how many there were.
fn end_screen(
    out: Stream,
    bank: Bank,
    door: u16,
    quarter: u16,
    rows: usize,
) -> Result<Option<Pending>, Unwritten> {
    if let Ok(Some(_)) = touching_at(bank.pool, door, quarter, rows) {
        return say_more(out, Asked::Who { door, quarter }, rows);
    }
    say_total(out, rows)?;
    Ok(None)
}

// A screenful of rows, from the first that has not been shown. Gives what is left to show.
pub fn say_rows(
    out: Stream,
    bank: Bank,
    door: u16,
    quarter: u16,
    rows: usize,
) -> Result<Option<Pending>, Unwritten> {
    // No pool has so many grants; with this the sum is seen to fit.
    let from = rows % 65536;
    let to = from + SCREEN;
    for i in from..to {
        if !say_row(out, bank, door, quarter, i)? {
            return Ok(None);
        }
    }
    end_screen(out, bank, door, quarter, to)
}
