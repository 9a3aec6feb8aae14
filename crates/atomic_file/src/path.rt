// A path as the library of today takes one: text. A name that is no text is refused, as the system refuses a name that it can't hold.
use console::errors::Failure;
use std::fs::{File, OpenOptions};
use std::str::from_utf8;

// The longest path that a file is written to: the name that it has until then is a little longer (specs/Beside).
pub const LONGEST_PATH: usize = 4000;

pub fn text_of(path: &[u8]) -> Result<&str, Failure> {
    from_utf8(path).map_err(|_| Failure::Other)
}

// Opens what stands there.
pub fn open_as(rt: HostRuntime, how: &OpenOptions, path: &[u8]) -> Result<File, Failure> {
    let file = how.open(&rt, text_of(path)?)?;
    Ok(file)
}

// The same, for reading alone.
pub fn open_read(rt: HostRuntime, path: &[u8]) -> Result<File, Failure> {
    open_as(rt, OpenOptions::new().read(true), path)
}
