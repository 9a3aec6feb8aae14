// The entries of a record (specs/Entry).
ghost use Rattle.std.specs.Prelude.{◌≡◌, ◌<◌};
ghost use Rattle.openings.specs.Entry.{entry_quarter, opening_of, entries_in, entry_at};

use crate::{ENTRY_BYTES, Opening};
use radix_sort::keys::key_at;

// How many whole entries a record has.
pub fn entries_in(bytes: &[u8]) -> usize
    ensures { result ≡ entries_in bytes.now }
{
    bytes.len() / ENTRY_BYTES
}

// The entry at a place, as the number of its bytes.
pub fn entry_at(bytes: &[u8], place: usize) -> u64
    requires { place < entries_in bytes.now }
    ensures { result ≡ entry_at bytes.now place }
{
    key_at(bytes, place)
}

pub fn quarter_of(entry: u64) -> u16
    ensures { result ≡ entry_quarter entry }
{
    (entry / 4294967296 % 65536) as u16
}

// The values of an entry.
pub fn opening_of(entry: u64) -> Opening
    ensures { result ≡ opening_of entry }
{
    Opening {
        door: (entry / 281474976710656 % 65536) as u16,
        quarter: quarter_of(entry),
        staff: (entry % 4294967296) as u32,
    }
}
