// Holds head office's grants against a bank's file.
use crate::common::warn_fault;
use crate::head_office::replay_named;
use crate::report::refuse;
use crate::table::{say_grant, say_heads};
use atomic_file::first;
use console::output::{Stream, Unwritten, answers, warn};
use console::status::{Ending, answered};
use file_calls::matching::match_file;
use file_calls::write::write;
use file_contents::door_range::doors_of;
use file_contents::lookup::numbered;
use grants_file::layout::MAX_BYTES;
use model::{Fault, Grant};
use pool::layout::MAX_WORDS;

// One side's grant of the number, whole, or that it has none.
fn say_side(out: Stream, side: &str, entry: Option<Grant>) -> Result<(), Unwritten> {
    let Some(grant) = entry else {
        return write!(out, "{side}: absent\n");
    };
    write!(out, "{side}:\n")?;
    say_heads(out)?;
    say_grant(out, grant)
}

// The number that differs, with both sides: head office's grants for the file's doors are those that it would write for them.
fn say_sides(out: Stream, pool: &[u16], file: &[u8], number: u16) -> Result<(), Unwritten> {
    write!(out, "differs, first at grant {number}\n")?;
    let Some(doors) = doors_of(file) else {
        return Ok(());
    };
    let mut bytes = [0u8; MAX_BYTES];
    let Ok(n) = write(pool, doors.from, doors.to, &mut bytes) else {
        return Ok(());
    };
    say_side(out, "head office", numbered(first(&bytes, n), number))?;
    say_side(out, "the bank's file", numbered(file, number))
}

// The answer of match, and the refusal of a pool or a file.
fn say_matched(
    rt: HostRuntime,
    pool: &[u16],
    file: &[u8],
    matched: Result<Option<u16>, Fault>,
) -> Ending {
    let out = answers(rt);
    match matched {
        Ok(None) => answered(out.put(b"equal\n"), Ending::Done),
        Ok(Some(number)) => answered(say_sides(out, pool, file, number), Ending::No),
        Err(_) if doors_of(file).is_none() => refuse(rt, file),
        Err(fault) => {
            warn_fault(rt, fault);
            Ending::No
        }
    }
}

pub fn match_bank(rt: HostRuntime, file: &[u8]) -> Ending {
    let mut pool = [0u16; MAX_WORDS];
    if let Err(ending) = replay_named(rt, &mut pool) {
        warn(rt, b"grants: nothing was held against the file\n");
        return ending;
    }
    say_matched(rt, &pool, file, match_file(&pool, file))
}
