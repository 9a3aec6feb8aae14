// What stands where a file is to be written: none, a file, or something that can't be replaced by a file.
use crate::known::{Facts, facts_of};
use crate::path::{LONGEST_PATH, open_as, open_read, text_of};
use console::errors::Failure;
use std::fs::{File, OpenOptions, symlink_metadata};

// The bits of a mode that tell the kind, and those of a file and of a folder.
const KIND: u32 = 0o170000;

const FILE: u32 = 0o100000;

const FOLDER: u32 = 0o040000;

// None; a file; a symbolic link; a device, a pipe or a socket, or what the system knows nothing of.
#[derive(Clone, Copy)]
pub enum Target {
    New,
    File(Facts),
    Link,
    Special,
}

// Whether two are one file, under whatever names. Not `==`, which would compare what the file is like, too.
pub fn is_same(a: Facts, b: Facts) -> bool {
    a.device == b.device && a.inode == b.inode
}

fn is_link(rt: HostRuntime, path: &[u8]) -> bool {
    if LONGEST_PATH < path.len() {
        return false;
    }
    let Ok(text) = text_of(path) else {
        return false;
    };
    match symlink_metadata(&rt, text) {
        Ok(known) => known.is_symlink(),
        Err(_) => false,
    }
}

// Opens what stands there; for writing too, where that may be, since the open of a pipe for reading alone waits for a writer.
fn open_any(rt: HostRuntime, path: &[u8]) -> Result<File, Failure> {
    match open_as(rt, OpenOptions::new().read(true).write(true), path) {
        Ok(file) => Ok(file),
        Err(Failure::NotFound) => Err(Failure::NotFound),
        Err(_) => open_read(rt, path),
    }
}

fn target_by(facts: Facts) -> Result<Target, Failure> {
    match facts.mode & KIND {
        FILE => Ok(Target::File(facts)),
        FOLDER => Err(Failure::IsFolder),
        _ => Ok(Target::Special),
    }
}

pub fn target_at(rt: HostRuntime, path: &[u8]) -> Result<Target, Failure> {
    if is_link(rt, path) {
        return Ok(Target::Link);
    }
    match open_any(rt, path) {
        Ok(file) => facts_of(&file).map_or(Ok(Target::Special), target_by),
        Err(Failure::NotFound) => Ok(Target::New),
        Err(failure) => Err(failure),
    }
}
