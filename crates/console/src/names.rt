// Names that people gave, as they are printed: a control byte is shown as \x and two digits, so that a name can't change a terminal.
use crate::errors::Failure;
use crate::output::{Stream, Unwritten, warn, warn_reason, warnings};

pub fn put_name(to: Stream, name: &[u8]) -> Result<(), Unwritten> {
    for &byte in name {
        if byte.is_ascii_control() {
            write!(to, "\\x{byte:02x}")?;
        } else {
            to.put(&[byte])?;
        }
    }
    Ok(())
}

pub fn warn_name(rt: HostRuntime, name: &[u8]) {
    let _ = put_name(warnings(rt), name);
}

// A file that can't be read, and why.
pub fn warn_unread(rt: HostRuntime, name: &[u8], failure: Failure) {
    warn(rt, b"grants: ");
    warn_name(rt, name);
    warn(rt, b" can't be read: ");
    warn_reason(rt, failure);
}
