// How many entries of two records agree: the places of both are sorted by their entries, and gone through side by side.
ghost use Rattle.std.specs.Prelude.{◌≡◌};
ghost use Rattle.multisets.specs.Agreement.{agree};
ghost use Rattle.openings.specs.Entry.{entries_of};
ghost use Rattle.openings.specs.Sorted.{SizedRecord, sorted_places};

use crate::MAX_ENTRIES;
use crate::entries::{entries_in, entry_at};
use radix_sort::sort_places;

// Goes through both records side by side, each in the order of its places. What is added goes by tests that need no branch: in which record
// the lower entry stands can't be foreseen.
fn count_agreeing(door: &[u8], door_places: &[u16], panel: &[u8], panel_places: &[u16]) -> usize
    requires { (door_places.now ≡ sorted_places door.now) × (panel_places.now ≡ sorted_places panel.now) }
    ensures { result ≡ agree (entries_of door.now) (entries_of panel.now) }
{
    // a `while`: each turn goes on in one of the two, or in both
    let mut agreeing: usize = 0;
    let mut i: usize = 0;
    let mut j: usize = 0;
    while i < door_places.len() && j < panel_places.len() {
        let x = entry_at(door, usize::from(door_places[i]));
        let y = entry_at(panel, usize::from(panel_places[j]));
        agreeing += usize::from(x == y);
        i += usize::from(x <= y);
        j += usize::from(y <= x);
    }
    agreeing
}

// How many entries of two records agree.
pub fn agreeing(door: &[u8], panel: &[u8]) -> usize
    requires { SizedRecord door.now × SizedRecord panel.now }
    ensures { result ≡ agree (entries_of door.now) (entries_of panel.now) }
{
    let mut door_room = [0u16; MAX_ENTRIES];
    let mut panel_room = [0u16; MAX_ENTRIES];
    let door_places = &mut door_room[..entries_in(door)];
    let panel_places = &mut panel_room[..entries_in(panel)];
    sort_places(door, door_places);
    sort_places(panel, panel_places);
    count_agreeing(door, door_places, panel, panel_places)
}
