// The panel's screens of the grants that hold a shift: one of the staff at one door, from a quarter until another. Where list refuses it,
// with 2 or 9, the refusal is shown in words below the box, and no row.
use crate::common::{say_fault, say_moment};
use crate::shown::{Asked, Bank, Pending, SCREEN, say_more};
use crate::table::{say_grant, say_heads};
use console::output::{Stream, Unwritten};
use file_contents::lookup::numbered;
use model::{Box, Choice, Fault, MAX_GRANTS};
use queries::list::list;
use std::cmp::min;

// A shift as a box: one of the staff at one door, until the first quarter that it no longer covers.
pub fn shift_box(staff: u16, door: u16, from: u16, to: u16) -> Box {
    Box {
        staff_from: staff,
        staff_to: staff,
        door_from: door,
        door_to: door,
        quarter_from: from,
        quarter_to: to,
    }
}

// The box that was asked about.
fn say_box(out: Stream, bank: Bank, bounds: Box) -> Result<(), Unwritten> {
    write!(
        out,
        "staff {}, door {}, from quarter ",
        bounds.staff_from, bounds.door_from
    )?;
    say_moment(out, bank.base, bounds.quarter_from)?;
    out.put(b" until quarter ")?;
    say_moment(out, bank.base, bounds.quarter_to)?;
    out.put(b"\n")
}

// How many grants there were, once all have been shown.
fn say_total(out: Stream, rows: usize) -> Result<(), Unwritten> {
    if rows == 0 {
        return out.put(b"no grant holds all of it\n\n");
    }
    write!(out, "{rows} in all\n")?;
    out.put(
        b"a higher grant may decide otherwise for some or all of it; may tells, a quarter at a time\n\n",
    )
}

// A row for each number that the pool has. A pool that is the file's has no number that the file hasn't.
fn say_numbers(out: Stream, file: &[u8], numbers: &[u16]) -> Result<(), Unwritten> {
    for &number in numbers {
        match numbered(file, number) {
            Some(grant) => say_grant(out, grant)?,
            None => say_fault(out, Fault::BrokenLinks)?,
        }
    }
    Ok(())
}

// A screenful of rows, from the first that has not been shown, of the grants with these numbers. Gives what is left to show.
fn say_screen(
    out: Stream,
    file: &[u8],
    numbers: &[u16],
    bounds: Box,
    rows: usize,
) -> Result<Option<Pending>, Unwritten> {
    let total = numbers.len();
    let from = min(rows, total);
    let to = from + min(SCREEN, total - from);
    if from == 0 && 0 < total {
        say_heads(out)?;
    }
    say_numbers(out, file, &numbers[from..to])?;
    if to < total {
        return say_more(out, Asked::Covers(bounds), to);
    }
    say_total(out, total)?;
    Ok(None)
}

// The same, of the grants that hold the box.
pub fn say_holding(
    out: Stream,
    bank: Bank,
    bounds: Box,
    rows: usize,
) -> Result<Option<Pending>, Unwritten> {
    let mut numbers = [0u16; MAX_GRANTS];
    match list(bank.pool, bounds, Choice::Holding, &mut numbers) {
        Ok(n) => {
            // n is within the list that was lent, which list does not promise by a bound.
            let held = &numbers[..min(n, MAX_GRANTS)];
            say_screen(out, bank.file, held, bounds, rows)
        }
        Err(fault) => {
            say_fault(out, fault)?;
            out.put(b"\n")?;
            Ok(None)
        }
    }
}

// The box, and the first screenful.
pub fn say_covers(out: Stream, bank: Bank, bounds: Box) -> Result<Option<Pending>, Unwritten> {
    say_box(out, bank, bounds)?;
    say_holding(out, bank, bounds, 0)
}
