// match: a pool's grants that touch the file's doors held against the file's grants (document 01, "The grants file").
// Equal, or the lowest number at which the two differ. Refuses by 1, by the file's faults, then by 9; it writes nothing.
ghost use Rattle.std.specs.Prelude.{◌≡◌, slice_get};
ghost use Rattle.model.specs.Answer.{matched_answer};
ghost use Rattle.grants_file.specs.File.{grants_in};
ghost use Rattle.grants_file.specs.FileSets.{Accepted};
ghost use Rattle.steps.specs.Hits.{Cells, grants_at};
ghost use Rattle.calls.specs.FileCalls.{first_difference, match_call};

use adt::predicates::Predicate;
use geometry::range::range_of_doors;
use grants_file::grants::{doors_in, grant_in, total_in};
use grants_file::verdict::judge;
use model::{Fault, Grant};
use pool::cell::grant_at;
use pool::layout::{MAX_CAPACITY, capacity};
use steps::hits::find_hits;
use steps::sorted_cells::sort_cells;

// The pool's grant at place i of the cells; none past the last.
fn ours_at(pool: &[u16], cells: &[u16], i: usize) -> Option<Grant>
    requires { Cells pool.now cells.now }
    ensures { result ≡ slice_get (grants_at pool.now cells.now) i }
{
    let cell = *cells.get(i)?;
    Some(grant_at(pool, usize::from(cell)))
}

// The file's grant at place i; none past the last.
fn theirs_at(file: &[u8], i: usize) -> Option<Grant>
    requires { Accepted file.now }
    ensures { result ≡ slice_get (grants_in file.now) i }
{
    if total_in(file) <= i {
        return None;
    }
    Some(grant_in(file, i))
}

// Where the grants in the cells and those of an accepted file, both ascending by number, differ first.
fn first_difference(pool: &[u16], cells: &[u16], file: &[u8]) -> Option<u16>
    requires { Cells pool.now cells.now × Accepted file.now }
    ensures { result ≡ first_difference (grants_at pool.now cells.now) (grants_in file.now) }
{
    let mut i: usize = 0;
    // A loop that yields by break, as docs/REQUIREMENTS names the form.
    loop {
        match (ours_at(pool, cells, i), theirs_at(file, i)) {
            (None, None) => break None,
            (Some(ours), None) => break Some(ours.number),
            (None, Some(theirs)) => break Some(theirs.number),
            (Some(ours), Some(theirs)) => {
                if ours != theirs {
                    break Some(ours.number.min(theirs.number));
                }
            }
        }
        i += 1;
    }
}

pub fn match_file(pool: &[u16], file: &[u8]) -> Result<Option<u16>, Fault>
    ensures { matched_answer result ≡ (match_call pool.now file.now).answer }
{
    let cells = capacity(pool).ok_or(Fault::BadPool)?;
    judge(file)?;
    let doors = doors_in(file);
    let range = range_of_doors(doors);
    let mut hits = [0u16; MAX_CAPACITY];
    let found = find_hits(pool, cells, &range, Predicate::InRange, &mut hits)?;
    let mut sorted = [0u16; MAX_CAPACITY];
    let sorted = &mut sorted[..found];
    sort_cells(pool, &hits[..found], sorted);
    Ok(first_difference(pool, sorted, file))
}
