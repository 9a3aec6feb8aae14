// The commands that start with a bank's file: it is read whole, and its bytes are handed to the command.
use atomic_file::first;
use atomic_file::reading::read;
use console::arguments::{are, name_at};
use console::names::warn_unread;
use console::status::Ending;
use grants_file::layout::MAX_BYTES;

// One byte more than the longest file has, so that a longer one is seen to be longer.
const ROOM: usize = MAX_BYTES + 1;

// Reads the file, and runs the command where it could be read.
fn read_then<Run: Fn(HostRuntime, &[u8]) -> Ending>(
    rt: HostRuntime,
    path: &[u8],
    run: Run,
) -> Ending
    requires { Run.IsAlwaysCallable run }
{
    let mut bytes = [0u8; ROOM];
    match read(rt, path, &mut bytes) {
        Ok(n) => run(rt, first(&bytes, n)),
        Err(failure) => {
            warn_unread(rt, path, failure);
            Ending::Failed
        }
    }
}

// Runs a command on the file that is named at a place among the arguments: it takes those up to there, and no more than `most`.
pub fn on_file<Run: Fn(HostRuntime, &[u8]) -> Ending>(
    rt: HostRuntime,
    command: &[u8],
    place: usize,
    most: usize,
    run: Run,
) -> Ending
    requires { Run.IsAlwaysCallable run }
{
    if !are(rt, command, place, most) {
        return Ending::Failed;
    }
    let mut lent = [0u8; 4096];
    match name_at(rt, b"FILE", place, &mut lent) {
        Some(path) => read_then(rt, path, run),
        None => Ending::Failed,
    }
}
