// The entries of a record that are left when it is held against another (specs/Left), one after the other.
ghost use Rattle.std.specs.Prelude.{◌≡◌, ◌<◌, ◌≤◌, take};
ghost use Rattle.multisets.specs.Multiplicity.{count};
ghost use Rattle.multisets.specs.Agreement.{is_left};
ghost use Rattle.openings.specs.Entry.{entries_in, entries_of};
ghost use Rattle.openings.specs.Left.{left_from};

use crate::LeftEntry;
use crate::entries::{entries_in, entry_at, opening_of};

// How often an entry stands among the first n of a record.
fn count_among(bytes: &[u8], n: usize, entry: u64) -> usize
    requires { n ≤ entries_in bytes.now }
    ensures { result ≡ count entry (take n (entries_of bytes.now)) }
{
    let mut found: usize = 0;
    for i in 0..n {
        found += usize::from(entry_at(bytes, i) == entry);
    }
    found
}

// Whether the entry at a place is left.
fn is_left(bytes: &[u8], other: &[u8], place: usize) -> bool
    requires { place < entries_in bytes.now }
    ensures { result ≡ is_left (entries_of bytes.now) (entries_of other.now) place }
{
    let entry = entry_at(bytes, place);
    count_among(other, entries_in(other), entry) <= count_among(bytes, place, entry)
}

// The first entry of the record from a place on that is left.
pub fn left_from(bytes: &[u8], other: &[u8], from: usize) -> Option<LeftEntry>
    ensures { result ≡ left_from bytes.now other.now from }
{
    for place in from..entries_in(bytes) {
        if is_left(bytes, other, place) {
            return Some(LeftEntry {
                number: place + 1,
                opening: opening_of(entry_at(bytes, place)),
            });
        }
    }
    None
}
