// grant: adds a grant. Refuses 1, 3, 4, 2, 16, 9, 5 and 6, in this order, and then leaves everything as it was.
ghost use Rattle.model.specs.Answer.{outcome_answer};
ghost use Rattle.model.specs.Call.{request};
ghost use Rattle.calls.specs.Calls.{grant_call};
ghost use Rattle.calls.specs.Contract.{Leaves};
ghost use Rattle.index.specs.Plans.{GrantPlanned};

use crate::find::find_number;
use adt::insert::insert;
use model::arguments::check_request;
use model::{Box, Fault};
use pool::layout::capacity;
use steps::insertion::{Insertion, plan_slot, requested};

// All walks and tests of grant, in document 01's order; nothing is written. The kind is a number, as C and slips give it: 4 refuses one above 1.
fn plan_insertion(
    pool: &[u16],
    number: u16,
    rank: u8,
    kind: u8,
    bounds: Box,
) -> Result<Insertion, Fault>
    ensures { GrantPlanned pool.now (request number rank kind bounds) result }
{
    let cells = capacity(pool).ok_or(Fault::BadPool)?;
    check_request(number, rank, kind, bounds)?;
    if let Some(_) = find_number(pool, cells, number)? {
        return Err(Fault::AlreadyLive);
    }
    plan_slot(pool, cells, requested(number, rank, kind, bounds))
}

pub fn grant(pool: &mut [u16], number: u16, rank: u8, kind: u8, bounds: Box) -> Result<(), Fault>
    ensures { Leaves (outcome_answer result) pool.new (grant_call pool.old (request number rank kind bounds)) }
{
    let at = plan_insertion(pool, number, rank, kind, bounds)?;
    let g = requested(number, rank, kind, bounds);
    insert(pool, at.link, at.parent, at.free, at.next, g);
    Ok(())
}
