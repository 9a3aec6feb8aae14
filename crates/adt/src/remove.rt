// Removal: the walk follows left, else right, from the unwanted cell until a terminal cell, which takes its place by links alone.
ghost use Rattle.std.specs.Prelude.{◌≡◌, ◌<◌};
ghost use Rattle.pool.specs.Capacity.{pool_length, Sized, InPool};
ghost use Rattle.adt.specs.Remove.{next_link, follow, replaced, reparented, raised, freed, removed};
ghost use Rattle.adt.specs.WalkResult.{removal_walk_of, RemovalStep, Removable};

use crate::Broken;
use pool::Field;
use pool::cell::store_free;
use pool::layout::{FREE, field, place_of, set_field};

// Where a removal walk ends: the terminal cell and the place of the link it hangs on.
#[derive(Clone, Copy)]
pub struct Terminal {
    pub cell: usize,
    pub link: usize,
}

// The place of the link that the walk goes through: left where that is not blank, else right.
fn next_link(pool: &[u16], k: usize) -> usize
    requires { InPool pool.now k }
    ensures { (result ≡ next_link pool.now k) × (result < pool_length k) }
{
    let left = place_of(k, Field::Left);
    if pool[left] == 0 {
        return place_of(k, Field::Right);
    }
    left
}

// The removal walk from the cell k, which hangs at the link's place with a number of levels below it; so many cells were met, k among them.
pub fn find_terminal(
    pool: &[u16],
    cells: usize,
    below: usize,
    k: usize,
    link: usize,
    met: usize,
) -> Result<Terminal, Broken>
    requires { RemovalStep pool.now cells below k met }
    ensures { removal_walk_of result ≡ follow pool.now cells below k link met }
{
    let at = next_link(pool, k);
    let next = usize::from(pool[at]);
    if next == 0 {
        return Ok(Terminal { cell: k, link });
    }
    if below == 0 {
        return Err(Broken);
    }
    if cells < next {
        return Err(Broken);
    }
    if cells <= met {
        return Err(Broken);
    }
    if usize::from(field(pool, next, Field::Parent)) != k {
        return Err(Broken);
    }
    find_terminal(pool, cells, below - 1, next, at, met + 1)
}

// The terminal cell is cut from its parent, takes the unwanted cell's two links as they then are, then its place.
fn replace(pool: &mut [u16], k: usize, link: usize, leaf: usize, cut: usize)
    requires { Removable pool.old k link leaf cut }
    ensures { pool.new ≡ replaced pool.old k link leaf cut }
{
    pool[cut] = 0;
    let left = field(pool, k, Field::Left);
    let right = field(pool, k, Field::Right);
    set_field(pool, leaf, Field::Left, left);
    set_field(pool, leaf, Field::Right, right);
    pool[link] = leaf as u16;
}

// A child gets another parent; a blank link names none, and neither does one above C, which no walk met.
fn reparent(pool: &mut [u16], cells: usize, child: u16, parent: u16)
    requires { Sized pool.old cells }
    ensures { pool.new ≡ reparented pool.old child parent }
{
    let j = usize::from(child);
    if 0 < j && j <= cells {
        set_field(pool, j, Field::Parent, parent);
    }
}

// The terminal cell, which has the links of k, gets its parent too, and becomes the parent of its children.
fn raise(pool: &mut [u16], cells: usize, k: usize, leaf: usize)
    requires { Sized pool.old cells × InPool pool.old k × InPool pool.old leaf }
    ensures { pool.new ≡ raised pool.old k leaf }
{
    let left = field(pool, leaf, Field::Left);
    let right = field(pool, leaf, Field::Right);
    let parent = field(pool, k, Field::Parent);
    set_field(pool, leaf, Field::Parent, parent);
    reparent(pool, cells, left, leaf as u16);
    reparent(pool, cells, right, leaf as u16);
}

// The cell becomes the free head.
fn free(pool: &mut [u16], k: usize)
    requires { InPool pool.old k }
    ensures { pool.new ≡ freed pool.old k }
{
    let next = pool[FREE];
    store_free(pool, k, next);
    pool[FREE] = k as u16;
}

// Removes the cell k, which hangs at the link's place, by the terminal cell that its removal walk found; k becomes the free head.
pub fn remove(pool: &mut [u16], cells: usize, k: usize, link: usize, leaf: usize, cut: usize)
    requires { Sized pool.old cells × Removable pool.old k link leaf cut }
    ensures { pool.new ≡ removed pool.old k link leaf cut }
{
    if leaf == k {
        pool[link] = 0;
    } else {
        replace(pool, k, link, leaf, cut);
        raise(pool, cells, k, leaf);
    }
    free(pool, k);
}
