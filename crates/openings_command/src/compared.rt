// The answer of the comparison: how many entries agree, how many are left in each record, and which.
use crate::left::say_left;
use crate::records::{ROOM, read_record};
use calendar::Date;
use console::output::{Stream, Unwritten, answers, warn};
use console::status::{Ending, answered};
use openings::Comparison;
use openings::compare::compare_openings;

// What two sound records have in common, and what is left in each.
fn say_compared(
    out: Stream,
    compared: Comparison,
    door: &[u8],
    panel: &[u8],
    base: Option<Date>,
) -> Result<(), Unwritten> {
    let Comparison {
        agreeing,
        left_in_door,
        left_in_panel,
    } = compared;
    write!(
        out,
        "{agreeing} agree, {left_in_door} left in the door record, {left_in_panel} left in the panel record\n"
    )?;
    say_left(out, "door", left_in_door, door, panel, base)?;
    say_left(out, "panel", left_in_panel, panel, door, base)
}

// Compares two sound records: done where nothing is left in either.
fn compare_sound(rt: HostRuntime, door: &[u8], panel: &[u8], base: Option<Date>) -> Ending {
    let Ok(compared) = compare_openings(door, panel) else {
        warn(rt, b"grants: the records are refused\n");
        return Ending::No;
    };
    let ending = if compared.left_in_door == 0 && compared.left_in_panel == 0 {
        Ending::Done
    } else {
        Ending::No
    };
    answered(
        say_compared(answers(rt), compared, door, panel, base),
        ending,
    )
}

// Both records are looked at before the command ends, so that a person hears of both. It ends as the worse of the two.
pub fn compare_records(
    rt: HostRuntime,
    door_name: &[u8],
    panel_name: &[u8],
    base: Option<Date>,
) -> Ending {
    let mut door_lent = [0u8; ROOM];
    let mut panel_lent = [0u8; ROOM];
    let door_read = read_record(rt, door_name, &mut door_lent);
    let panel_read = read_record(rt, panel_name, &mut panel_lent);
    match (door_read, panel_read) {
        (Ok(door), Ok(panel)) => compare_sound(rt, door, panel, base),
        (Err(Ending::Failed), _) | (_, Err(Ending::Failed)) => Ending::Failed,
        (Err(_), _) | (_, Err(_)) => Ending::No,
    }
}
