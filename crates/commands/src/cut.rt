// Cuts a bank's file from head office's journal. Nothing is written before the journal is replayed whole. An error is how the command ends where
// nothing was written, after what was said of it.
use crate::common::{number_at, warn_fault, warn_file};
use crate::head_office::{open, replay};
use crate::replaced::{holds_grants, replaced_at, unwritten, warn_leftovers, warn_names};
use crate::report::say_contents;
use atomic_file::first;
use atomic_file::known::{Facts, facts_of};
use atomic_file::writing::{Unstored, replace};
use console::arguments::{are, given, name_at, text_at, usage};
use console::names::{put_name, warn_name};
use console::output::{Stream, Unwritten, answers, warn, warn_reason};
use console::status::{Ending, answered};
use file_calls::write::write;
use grants_file::layout::{BLOCK_BYTES, MAX_BYTES};
use pool::layout::MAX_WORDS;

fn say_written(out: Stream, path: &[u8], file: &[u8]) -> Result<(), Unwritten> {
    put_name(out, path)?;
    out.put(b" written: ")?;
    say_contents(out, file)
}

// Puts the file in place, and says what it holds.
fn store(rt: HostRuntime, path: &[u8], replaced: Option<Facts>, file: &[u8]) -> Ending {
    warn_leftovers(rt, path);
    match replace(rt, path, replaced, file) {
        Ok(()) => {
            if let Some(facts) = replaced {
                warn_names(rt, path, facts);
            }
            answered(say_written(answers(rt), path, file), Ending::Done)
        }
        Err(Unstored::Unsynced(failure)) => {
            warn_file(
                rt,
                path,
                b" is written, but a power cut may bring the old file back, since its folder could not be synced: ",
            );
            warn_reason(rt, failure);
            Ending::Failed
        }
        Err(Unstored::Failed(failure)) => unwritten(rt, path, failure),
    }
}

// Whether the last argument says that a file of no grants is meant.
fn is_empty_meant(rt: HostRuntime) -> bool {
    let mut word = [0u8; 16];
    6 <= given(rt) && text_at(rt, 6, &mut word) == b"empty".as_slice()
}

// Stores the file. One of no grants does not take the place of one that holds some, unless that is meant.
fn store_meant(
    rt: HostRuntime,
    path: &[u8],
    replaced: Option<Facts>,
    file: &[u8],
) -> Result<Ending, Ending> {
    let is_empty = file.len() <= BLOCK_BYTES;
    if is_empty && !is_empty_meant(rt) && replaced.is_some() && holds_grants(rt, path) {
        warn(
            rt,
            b"grants: the journal has no grant for these doors, but ",
        );
        warn_name(rt, path);
        warn(rt, b" holds some: if that is meant, add the word empty\n");
        return Err(Ending::No);
    }
    Ok(store(rt, path, replaced, file))
}

fn cut_pool(
    rt: HostRuntime,
    pool: &[u16],
    path: &[u8],
    replaced: Option<Facts>,
    from: u16,
    to: u16,
) -> Result<Ending, Ending> {
    let mut bytes = [0u8; MAX_BYTES];
    match write(pool, from, to, &mut bytes) {
        Ok(n) => store_meant(rt, path, replaced, first(&bytes, n)),
        Err(fault) => {
            warn_fault(rt, fault);
            Err(Ending::No)
        }
    }
}

fn cut_named(
    rt: HostRuntime,
    journal: &[u8],
    path: &[u8],
    from: u16,
    to: u16,
) -> Result<Ending, Ending> {
    let file = open(rt, journal)?;
    let replaced = replaced_at(rt, path, facts_of(&file))?;
    let mut pool = [0u16; MAX_WORDS];
    replay(rt, file, journal, &mut pool)?;
    cut_pool(rt, &pool, path, replaced, from, to)
}

fn cut_doors(rt: HostRuntime, from: u16, to: u16) -> Result<Ending, Ending> {
    let mut lent_journal = [0u8; 4096];
    let journal = name_at(rt, b"JOURNAL", 2, &mut lent_journal).ok_or(Ending::Failed)?;
    let mut lent_path = [0u8; 4096];
    let path = name_at(rt, b"FILE", 5, &mut lent_path).ok_or(Ending::Failed)?;
    cut_named(rt, journal, path, from, to)
}

// Whether the arguments are those that cut takes.
fn are_given(rt: HostRuntime) -> bool {
    if !are(rt, b"cut", 5, 6) {
        return false;
    }
    if given(rt) < 6 || is_empty_meant(rt) {
        return true;
    }
    usage(rt, b"cut");
    false
}

// A door that an argument gives; else says that it gives none.
fn door_at(rt: HostRuntime, what: &[u8], place: usize) -> Option<u16> {
    let door = number_at(rt, place);
    if door.is_none() {
        warn(rt, b"grants: ");
        warn(rt, what);
        warn(rt, b" is no door: give a number from 0 to 65535\n");
    }
    door
}

// Not inlined: its index and its file would stand in the frame of the program, below those of every other command.
#[inline(never)]
pub fn cut(rt: HostRuntime) -> Ending {
    if !are_given(rt) {
        return Ending::Failed;
    }
    let Some(from) = door_at(rt, b"FROM", 3) else {
        return Ending::Failed;
    };
    let Some(to) = door_at(rt, b"TO", 4) else {
        return Ending::Failed;
    };
    match cut_doors(rt, from, to) {
        Ok(ending) => ending,
        Err(ending) => {
            warn(rt, b"grants: nothing was written\n");
            ending
        }
    }
}
