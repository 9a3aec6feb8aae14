// The panel's answer of whether a staff number may open a door at a quarter: decide is asked, and its answer printed as one text (may_answer).
use crate::common::say_fault;
use crate::shown::Bank;
use console::output::{Stream, Unwritten};
use may_answer::printing::may_text;
use queries::decide::decide;

// The answer's bytes; a refusal's sentence follows them.
pub fn say_may(
    out: Stream,
    bank: Bank,
    staff: u16,
    door: u16,
    quarter: u16,
) -> Result<(), Unwritten> {
    let decision = decide(bank.pool, staff, door, quarter);
    out.put(may_text(staff, door, quarter, bank.base, decision).as_slice())?;
    match decision {
        Ok(_) => Ok(()),
        Err(fault) => say_fault(out, fault),
    }
}
