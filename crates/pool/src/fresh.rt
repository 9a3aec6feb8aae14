// The words that start makes: an empty index, its free cells in rising order.
ghost use Rattle.std.specs.Prelude.{◌≡◌, take, drop};
ghost use Rattle.pool.specs.Layout.{header_words};
ghost use Rattle.pool.specs.Capacity.{Sized};
ghost use Rattle.pool.specs.Fresh.{free_cells, fresh_pool};

use crate::cell::store_free;
use crate::layout::{CAPACITY, FREE, ROOT};

// Makes every cell free, each leading to the one after it. From the last one down, so that what is done is a tail of the words.
fn free_all(pool: &mut [u16], cells: usize)
    requires { Sized pool.old cells }
    ensures { (drop header_words pool.new ≡ free_cells cells 1)
        × (take header_words pool.new ≡ take header_words pool.old) }
{
    let mut next: u16 = 0;
    for k in (1..=cells).rev() {
        store_free(pool, k, next);
        next = k as u16;
    }
}

// Makes an empty index.
pub fn make_fresh(pool: &mut [u16], cells: usize)
    requires { Sized pool.old cells }
    ensures { pool.new ≡ fresh_pool cells }
{
    pool[CAPACITY] = cells as u16;
    pool[ROOT] = 0;
    pool[FREE] = 1;
    free_all(pool, cells);
}
