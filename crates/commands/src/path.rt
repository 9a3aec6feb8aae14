// Where a grant stands in the tree: its cell and those above it up to the root, of a journal that is replayed or a bank's file that is loaded.
use crate::common::{number_at, say_fault};
use crate::head_office::{open, replay_on};
use crate::replaced::is_marked;
use crate::report::refuse;
use crate::table::say_heads;
use atomic_file::first;
use atomic_file::reading::read_on;
use console::arguments::{are, name_at};
use console::names::warn_unread;
use console::output::{Stream, Unwritten, answers, warn};
use console::status::Ending;
use file_calls::load::load;
use geometry::axis::LEVELS;
use grant_path::ancestors::{Ancestor, ancestor_at};
use grant_path::rows::path_row;
use grants_file::layout::MAX_BYTES;
use model::Fault;
use pool::layout::MAX_WORDS;
use std::fs::File;

// One byte more than the longest bank's file has, so that a longer one is seen to be longer.
const ROOM: usize = MAX_BYTES + 1;

fn say_cell(out: Stream, ancestor: Ancestor) -> Result<(), Unwritten> {
    out.put(path_row(ancestor.cell, ancestor.level, ancestor.grant).as_slice())
}

// A refusal in place of a row.
fn say_refusal(out: Stream, fault: Fault) -> Result<Ending, Unwritten> {
    say_fault(out, fault)?;
    Ok(Ending::No)
}

// A row for each cell, from the grant's own up to the root's: no level is below the last.
fn say_cells(out: Stream, pool: &[u16], number: u16) -> Result<Ending, Unwritten> {
    for i in 0..=LEVELS {
        match ancestor_at(pool, number, i) {
            Ok(Some(ancestor)) => say_cell(out, ancestor)?,
            Ok(None) => return Ok(Ending::Done),
            Err(fault) => return say_refusal(out, fault),
        }
    }
    Ok(Ending::Done)
}

// The heads and the rows, or that there is no such grant.
fn say_path(out: Stream, pool: &[u16], number: u16) -> Result<Ending, Unwritten> {
    match ancestor_at(pool, number, 0) {
        Ok(Some(_)) => {
            out.put(b"    cell   level")?;
            say_heads(out)?;
            say_cells(out, pool, number)
        }
        Ok(None) => Ok(Ending::Done),
        Err(fault) => say_refusal(out, fault),
    }
}

fn path_in_pool(rt: HostRuntime, pool: &[u16], number: u16) -> Ending {
    say_path(answers(rt), pool, number).unwrap_or(Ending::Failed)
}

fn path_in_file(rt: HostRuntime, file: &[u8], number: u16) -> Ending {
    let mut pool = [0u16; MAX_WORDS];
    match load(&mut pool, file) {
        Ok(()) => path_in_pool(rt, &pool, number),
        Err(_) => refuse(rt, file),
    }
}

fn path_in_journal(
    rt: HostRuntime,
    file: File,
    name: &[u8],
    input: &mut [u8],
    read: usize,
    number: u16,
) -> Ending {
    let mut pool = [0u16; MAX_WORDS];
    match replay_on(rt, file, name, &mut pool, input, read) {
        Ok(()) => path_in_pool(rt, &pool, number),
        Err(ending) => ending,
    }
}

// A bank's file is told from a journal by its mark. What was read of a journal until then isn't read again: it may come through a pipe.
fn path_in_read(
    rt: HostRuntime,
    file: File,
    name: &[u8],
    bytes: &mut [u8],
    read: usize,
    number: u16,
) -> Ending {
    if is_marked(first(bytes, read)) {
        drop(file);
        return path_in_file(rt, first(bytes, read), number);
    }
    path_in_journal(rt, file, name, bytes, read, number)
}

fn path_in(rt: HostRuntime, name: &[u8], number: u16) -> Ending {
    let mut file = match open(rt, name) {
        Ok(file) => file,
        Err(ending) => return ending,
    };
    let mut bytes = [0u8; ROOM];
    match read_on(&mut file, &mut bytes) {
        Ok(n) => path_in_read(rt, file, name, &mut bytes, n, number),
        Err(failure) => {
            warn_unread(rt, name, failure);
            Ending::Failed
        }
    }
}

fn path_of(rt: HostRuntime, number: u16) -> Ending {
    let mut lent = [0u8; 4096];
    match name_at(rt, b"FILE", 2, &mut lent) {
        Some(name) => path_in(rt, name, number),
        None => Ending::Failed,
    }
}

pub fn path(rt: HostRuntime) -> Ending {
    if !are(rt, b"path", 3, 3) {
        return Ending::Failed;
    }
    match number_at(rt, 3) {
        None | Some(0) => {
            warn(
                rt,
                b"grants: NUMBER is no grant's number: give one from 1 to 65535\n",
            );
            Ending::Failed
        }
        Some(number) => path_of(rt, number),
    }
}
