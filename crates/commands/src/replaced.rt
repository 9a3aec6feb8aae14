// What may stand where a bank's file is cut: nothing, or a file that `cut` itself would write. Anything else is refused, so that nothing is lost.
use crate::common::warn_file;
use atomic_file::beside::{FIRST, LAST, is_left};
use atomic_file::first;
use atomic_file::known::Facts;
use atomic_file::reading::read;
use atomic_file::target::{Target, is_same, target_at};
use console::errors::Failure;
use console::output::{warn, warn_reason};
use console::status::Ending;
use grants_file::layout::{BLOCK_BYTES, CURRENT_FORM, magic_of};

// So many bytes tell a grants file's mark and whether it holds grants: a file of a block alone has none.
const TOLD: usize = BLOCK_BYTES + 1;

// Whether bytes begin with a grants file's mark; its last byte, the form's number, may be another.
pub fn is_marked(bytes: &[u8]) -> bool {
    bytes.starts_with(&magic_of(CURRENT_FORM)[..3])
}

// What a file holds: no grants, as an empty file or one of a block alone; grants; or something else.
#[derive(Clone, Copy)]
enum Contents {
    NoGrants,
    Grants,
    Other,
}

fn contents_of(bytes: &[u8]) -> Contents {
    if bytes.is_empty() {
        return Contents::NoGrants;
    }
    if !is_marked(bytes) {
        return Contents::Other;
    }
    if bytes.len() < TOLD {
        return Contents::NoGrants;
    }
    Contents::Grants
}

fn contents_at(rt: HostRuntime, path: &[u8]) -> Result<Contents, Failure> {
    let mut bytes = [0u8; TOLD];
    let n = read(rt, path, &mut bytes)?;
    Ok(contents_of(first(&bytes, n)))
}

// Why a file could not be written: what is said of a new file's name alone, or of any file.
fn warn_why(rt: HostRuntime, failure: Failure) {
    match failure {
        Failure::Exists => warn(
            rt,
            b"all names for a new file are taken: remove the leftovers\n",
        ),
        Failure::NameTooLong => warn(
            rt,
            b"its name is too long: while it is written it has five bytes more\n",
        ),
        _ => warn_reason(rt, failure),
    }
}

// Says that a file could not be written. Gives how the command ends.
pub fn unwritten(rt: HostRuntime, path: &[u8], failure: Failure) -> Ending {
    warn_file(rt, path, b" was not written, and nothing was changed: ");
    warn_why(rt, failure);
    Ending::Failed
}

// Says why a file may not be written. Gives how the command ends.
fn refuse(rt: HostRuntime, path: &[u8], reason: &[u8]) -> Ending {
    warn_file(rt, path, reason);
    Ending::Failed
}

// A file that is there, if it may be replaced.
fn replaced_file(
    rt: HostRuntime,
    path: &[u8],
    there: Facts,
    journal: Option<Facts>,
) -> Result<Facts, Ending> {
    if let Some(journal) = journal
        && is_same(there, journal)
    {
        return Err(refuse(
            rt,
            path,
            b" is the journal itself: name another file to write\n",
        ));
    }
    match contents_at(rt, path) {
        Ok(Contents::NoGrants | Contents::Grants) => Ok(there),
        Ok(Contents::Other) => Err(refuse(
            rt,
            path,
            b" is there and is no grants file: name another, or remove it first\n",
        )),
        Err(failure) => Err(unwritten(rt, path, failure)),
    }
}

// The file that a bank's file is to replace, None where there is none; else says why none may be written there.
pub fn replaced_at(
    rt: HostRuntime,
    path: &[u8],
    journal: Option<Facts>,
) -> Result<Option<Facts>, Ending> {
    match target_at(rt, path) {
        Ok(Target::New) => Ok(None),
        Ok(Target::File(there)) => Ok(Some(replaced_file(rt, path, there, journal)?)),
        Ok(Target::Link) => Err(refuse(rt, path, b" is a link: name the file that it leads to\n")),
        Ok(Target::Special) => Err(refuse(
            rt,
            path,
            b" is a device or a pipe, not a file: name a file\n",
        )),
        Err(failure) => Err(unwritten(rt, path, failure)),
    }
}

// Whether the file that is there holds grants.
pub fn holds_grants(rt: HostRuntime, path: &[u8]) -> bool {
    matches!(contents_at(rt, path), Ok(Contents::Grants))
}

fn warn_left(rt: HostRuntime, path: &[u8], digit: u8) {
    if is_left(rt, path, digit) {
        warn_file(rt, path, b".new");
        warn(rt, &[digit]);
        warn(
            rt,
            b" is left from a cut that was ended: remove it, unless a cut still runs\n",
        );
    }
}

// Says which files are left from cuts that were ended.
pub fn warn_leftovers(rt: HostRuntime, path: &[u8]) {
    for digit in FIRST..=LAST {
        warn_left(rt, path, digit);
    }
}

// Says that other names of a file that was replaced keep what they had.
pub fn warn_names(rt: HostRuntime, path: &[u8], replaced: Facts) {
    if 1 < replaced.links {
        warn_file(rt, path, b" had other names: they keep the old file\n");
    }
}
