// Puts a file in place of another, or where there was none.
use crate::beside::{beside, make};
use crate::folder::sync_folder;
use crate::known::Facts;
use crate::path::{LONGEST_PATH, text_of};
use console::errors::Failure;
use std::fs::{File, Permissions, remove_file, rename};
use std::io::Write;
use std::os::unix::fs::{PermissionsExt, fchown};

// Why a file isn't stored: it is in place, but may be the old one again after a power cut; or it was not written, and nothing changed.
#[derive(Clone, Copy)]
pub enum Unstored {
    Unsynced(Failure),
    Failed(Failure),
}

impl From<Failure> for Unstored {
    fn from(failure: Failure) -> Unstored {
        Unstored::Failed(failure)
    }
}

// Readable by all, to be changed by its owner alone.
const MODE: u32 = 0o644;

// Whose the new file is, and its mode: as the file was that it replaces, or as any new file.
fn set_mode(file: &File, old: Option<Facts>) -> Result<(), Failure> {
    let mode = match old {
        Some(facts) => {
            fchown(file, Some(facts.owner), Some(facts.group))?;
            facts.mode % 4096
        }
        None => MODE,
    };
    file.set_permissions(Permissions::from_mode(mode))?;
    Ok(())
}

// Writes the bytes into a file once it has its mode, waits until they have reached the disk, and closes it.
fn fill(mut file: File, old: Option<Facts>, bytes: &[u8]) -> Result<(), Failure> {
    set_mode(&file, old)?;
    file.write_all(bytes)?;
    file.sync_all()?;
    Ok(())
}

// Gives a file another name.
fn move_to(rt: HostRuntime, name: &[u8], path: &[u8]) -> Result<(), Failure> {
    rename(&rt, text_of(name)?, text_of(path)?)?;
    Ok(())
}

fn remove(rt: HostRuntime, name: &[u8]) {
    if let Ok(text) = text_of(name) {
        let _ = remove_file(&rt, text);
    }
}

// Fills the new file and gives it its name.
fn place(
    rt: HostRuntime,
    file: File,
    old: Option<Facts>,
    bytes: &[u8],
    name: &[u8],
    path: &[u8],
) -> Result<(), Failure> {
    fill(file, old, bytes)?;
    move_to(rt, name, path)
}

// Stores the bytes as the file of this path, in place of an old one where there is one. A new file that isn't whole, or can't get its name,
// is removed again.
pub fn replace(
    rt: HostRuntime,
    path: &[u8],
    old: Option<Facts>,
    bytes: &[u8],
) -> Result<(), Unstored> {
    if LONGEST_PATH < path.len() {
        return Err(Unstored::Failed(Failure::NameTooLong));
    }
    let made = make(rt, path)?;
    let name = beside(path, made.digit);
    if let Err(failure) = place(rt, made.file, old, bytes, name.as_slice(), path) {
        remove(rt, name.as_slice());
        return Err(Unstored::Failed(failure));
    }
    sync_folder(rt, path).map_err(Unstored::Unsynced)
}
