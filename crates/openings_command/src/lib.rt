// The command `grants openings`: a door record held against a panel record. What it answers is decided in the library openings, which is proved.
#![tactic(auto)]

mod compared;
mod defects;
mod left;
mod records;

use base_day::base_at;
use compared::compare_records;
use console::arguments::{are, name_at};
use console::status::Ending;

// `grants openings DOOR-RECORD PANEL-RECORD [BASE-DAY]`.
pub fn openings(rt: HostRuntime) -> Ending {
    if !are(rt, b"openings", 3, 4) {
        return Ending::Failed;
    }
    let mut door_lent = [0u8; 4096];
    let Some(door) = name_at(rt, b"DOOR-RECORD", 2, &mut door_lent) else {
        return Ending::Failed;
    };
    let mut panel_lent = [0u8; 4096];
    let Some(panel) = name_at(rt, b"PANEL-RECORD", 3, &mut panel_lent) else {
        return Ending::Failed;
    };
    let Ok(base) = base_at(rt, 4) else {
        return Ending::Failed;
    };
    compare_records(rt, door, panel, base)
}
