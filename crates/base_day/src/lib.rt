// The operator's base day, given as an argument of a command. What is no base day is told on standard error, with what to write.
#![tactic(auto)]

use calendar::Date;
use calendar::days::is_base;
use console::arguments::{given, text_at};
use console::output::warn;
use question::dates::day_of_text;

// The argument is no base day, which has been told.
#[derive(Clone, Copy)]
pub struct NoBaseDay;

fn base_of(rt: HostRuntime, text: &[u8]) -> Result<Date, NoBaseDay> {
    let Some(day) = day_of_text(text) else {
        warn(rt, b"grants: BASE-DAY is no day: write it as 2026-01-31\n");
        return Err(NoBaseDay);
    };
    if !is_base(day) {
        warn(
            rt,
            b"grants: BASE-DAY is too late: its last quarter must end before the year 10000\n",
        );
        return Err(NoBaseDay);
    }
    Ok(day)
}

// The base day at a place among the arguments, None where none was given.
pub fn base_at(rt: HostRuntime, place: usize) -> Result<Option<Date>, NoBaseDay> {
    if given(rt) < place {
        return Ok(None);
    }
    let mut lent = [0u8; 4096];
    let day = base_of(rt, text_at(rt, place, &mut lent))?;
    Ok(Some(day))
}
