// The folder that a file stands in, brought to the disk: until then a power cut may bring back what the name stood for before.
use crate::path::open_read;
use console::errors::Failure;

// The part of a path that names its folder, the last slash among it.
fn folder_of(path: &[u8]) -> &[u8] {
    match path.iter().rposition(|&byte| byte == b'/') {
        Some(slash) => &path[..=slash],
        None => b".",
    }
}

pub fn sync_folder(rt: HostRuntime, path: &[u8]) -> Result<(), Failure> {
    let folder = open_read(rt, folder_of(path))?;
    folder.sync_all()?;
    Ok(())
}
