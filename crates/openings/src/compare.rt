// The comparison of a door record with a panel record (specs/Compare).
ghost use Rattle.std.specs.Prelude.{◌≡◌, Ok};
ghost use Rattle.model.specs.Answer.{accepted};
ghost use Rattle.openings.specs.Entry.{entries_of};
ghost use Rattle.openings.specs.Sorted.{SizedRecord};
ghost use Rattle.openings.specs.Compare.{compared_answer, comparison, compare_call};

use crate::Comparison;
use crate::agreeing::agreeing;
use crate::defects::{order_defect, size_defect};
use crate::entries::entries_in;
use model::Fault;

// What the records have in common, and what is left of each. Both are sound.
fn compare_sound(door: &[u8], panel: &[u8]) -> Comparison
    requires { SizedRecord door.now × SizedRecord panel.now }
    ensures { compared_answer (Ok result) ≡ accepted (comparison (entries_of door.now) (entries_of panel.now)) }
{
    let agreeing = agreeing(door, panel);
    Comparison {
        agreeing,
        left_in_door: entries_in(door) - agreeing,
        left_in_panel: entries_in(panel) - agreeing,
    }
}

// Refuses 24, then 25.
pub fn compare_openings(door: &[u8], panel: &[u8]) -> Result<Comparison, Fault>
    ensures { compared_answer result ≡ (compare_call door.now panel.now).answer }
{
    if size_defect(door).is_err() || size_defect(panel).is_err() {
        return Err(Fault::BadOpeningsLength);
    }
    if order_defect(door).is_err() || order_defect(panel).is_err() {
        return Err(Fault::UnorderedQuarters);
    }
    Ok(compare_sound(door, panel))
}
