// Reads a file into lent bytes, as far as they go: a caller that lends one byte more than it takes sees that a file is too long.
ghost use Rattle.std.specs.Prelude.{length};
ghost use Rattle.atomic_file.specs.Within.{ReadWithin};

use crate::path::open_read;
use console::errors::Failure;
use std::io;

// Reads on from an open file until the bytes are full or the file ends, however few come at a time: how many were read.
pub fn read_on<R: io::Read>(from: &mut R, bytes: &mut [u8]) -> Result<usize, Failure>
    ensures { ReadWithin (length bytes.old) result }
{
    let mut done: usize = 0;
    // No `for`: a turn goes on by as many bytes as came.
    while done < bytes.len() {
        let more = from.read(&mut bytes[done..])?;
        if more == 0 {
            break;
        }
        done += more;
    }
    Ok(done)
}

pub fn read(rt: HostRuntime, path: &[u8], bytes: &mut [u8]) -> Result<usize, Failure>
    ensures { ReadWithin (length bytes.old) result }
{
    let mut file = open_read(rt, path)?;
    read_on(&mut file, bytes)
}
