// What the system knows of an open file.
use std::fs::File;
use std::os::unix::fs::MetadataExt;

// Which file it is, how many names it has, its kind and mode, and whose it is.
#[derive(Clone, Copy)]
pub struct Facts {
    pub device: u64,
    pub inode: u64,
    pub links: u64,
    pub mode: u32,
    pub owner: u32,
    pub group: u32,
}

pub fn facts_of(file: &File) -> Option<Facts> {
    let known = file.metadata().ok()?;
    Some(Facts {
        device: known.dev(),
        inode: known.ino(),
        links: known.nlink(),
        mode: known.mode(),
        owner: known.uid(),
        group: known.gid(),
    })
}
