// list: the numbers of the live grants that touch a box, or of those that hold it, ascending, from the lent list's start (document 01,
// "The plain book"; document 02, card 4). Refuses by 1, 2, 9, then 8, and writes nothing before that.
ghost use Rattle.std.specs.Prelude.{◌≡◌, length};
ghost use Rattle.lists.specs.Sort.{sort_by};
ghost use Rattle.model.specs.Answer.{listed_answer};
ghost use Rattle.steps.specs.Hits.{Cells, numbers_at};
ghost use Rattle.calls.specs.Calls.{list_call};
ghost use Rattle.calls.specs.Contract.{Lends};

use model::bounds::is_reversed;
use model::{Box, Choice, Fault};
use pool::Field;
use pool::layout::{MAX_CAPACITY, capacity, field};
use sorting::sort_numbers;
use steps::hits::find_taken;

// Fills the list with the numbers in the hits' cells, in their order.
fn copy_numbers(pool: &[u16], hits: &[u16], list: &mut [u16])
    requires { Cells pool.now hits.now × (length list.old ≡ length hits.now) }
    ensures { list.new ≡ numbers_at pool.now hits.now }
{
    for (i, hit) in hits.iter().enumerate() {
        list[i] = field(pool, usize::from(*hit), Field::Number);
    }
}

// The same, ascending.
fn write_numbers(pool: &[u16], hits: &[u16], list: &mut [u16])
    requires { Cells pool.now hits.now × (length list.old ≡ length hits.now) }
    ensures { list.new ≡ sort_by (λ n. n) (numbers_at pool.now hits.now) }
{
    copy_numbers(pool, hits, list);
    sort_numbers(list);
}

pub fn list(pool: &[u16], bounds: Box, choice: Choice, list: &mut [u16]) -> Result<usize, Fault>
    ensures { Lends (listed_answer result) list.new (list_call pool.now bounds choice list.old) }
{
    let cells = capacity(pool).ok_or(Fault::BadPool)?;
    if is_reversed(bounds) {
        return Err(Fault::Reversed);
    }
    let mut hits = [0u16; MAX_CAPACITY];
    let found = find_taken(pool, cells, bounds, choice, &mut hits)?;
    if list.len() < found {
        return Err(Fault::ListTooShort { needed: found });
    }
    let hits = &hits[..found];
    write_numbers(pool, hits, &mut list[..found]);
    Ok(found)
}
