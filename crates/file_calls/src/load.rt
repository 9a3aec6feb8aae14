// load: makes the pool what start and then the file's grants, in their order, make it (document 01, "The grants file").
// Refuses by 1, the file's faults, then 6. The file is judged whole before a word is written.
ghost use Rattle.std.specs.Prelude.{◌≡◌};
ghost use Rattle.model.specs.Answer.{outcome_answer};
ghost use Rattle.grants_file.specs.File.{grants_in};
ghost use Rattle.calls.specs.FileCalls.{load_call};
ghost use Rattle.steps.specs.Insertions.{added_all};
ghost use Rattle.calls.specs.Contract.{Leaves};
ghost use Rattle.file_calls.specs.Loading.{Loading};

use grants_file::grants::{grant_in, total_in};
use grants_file::verdict::judge;
use model::Fault;
use pool::fresh::make_fresh;
use pool::layout::length_capacity;
use steps::insertion::add;

// Hangs the grants of an accepted file, one after the other: their numbers rise, so each is new, and none is searched for.
fn add_all(pool: &mut [u16], file: &[u8], cells: usize, total: usize)
    requires { Loading pool.old cells file.now total }
    ensures { pool.new ≡ added_all pool.old (grants_in file.now) }
{
    for i in 0..total {
        add(pool, cells, grant_in(file, i));
    }
}

pub fn load(pool: &mut [u16], file: &[u8]) -> Result<(), Fault>
    ensures { Leaves (outcome_answer result) pool.new (load_call pool.old file.now) }
{
    let cells = length_capacity(pool).ok_or(Fault::BadPool)?;
    // Not by `?`: a must-fail edit changes what is returned here, and nothing else.
    if let Err(fault) = judge(file) {
        return Err(fault);
    }
    let total = total_in(file);
    if cells < total {
        return Err(Fault::Full);
    }
    make_fresh(pool, cells);
    add_all(pool, file, cells, total);
    Ok(())
}
