// Files read whole into lent bytes, and written whole or not at all: a new file beside the old one, renamed into its place once all its bytes
// have reached the disk. A failure says what the system's error says, and leaves the old file as it was.
#![tactic(auto)]

ghost use Rattle.std.specs.Prelude.{◌≡◌, take};

pub mod beside;
mod folder;
pub mod known;
pub mod path;
pub mod reading;
pub mod target;
pub mod writing;

// The first n bytes, or all where there are fewer: the part of lent bytes that holds what was read or written.
pub fn first(bytes: &[u8], n: usize) -> &[u8]
    ensures { result.now ≡ take n bytes.now }
{
    &bytes[..n.min(bytes.len())]
}
