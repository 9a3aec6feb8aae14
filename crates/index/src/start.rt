// start: an empty index in any memory of a pool's length. Refuses 1, and then leaves everything as it was.
ghost use Rattle.model.specs.Answer.{outcome_answer};
ghost use Rattle.calls.specs.Calls.{start_call};
ghost use Rattle.calls.specs.Contract.{Leaves};

use model::Fault;
use pool::fresh::make_fresh;
use pool::layout::length_capacity;

pub fn start(pool: &mut [u16]) -> Result<(), Fault>
    ensures { Leaves (outcome_answer result) pool.new (start_call pool.old) }
{
    let cells = length_capacity(pool).ok_or(Fault::BadPool)?;
    make_fresh(pool, cells);
    Ok(())
}
