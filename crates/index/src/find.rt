// The search for a grant's number, which grant and revoke begin with, and the cell of a live grant.
ghost use Rattle.pool.specs.Capacity.{Sized};
ghost use Rattle.index.specs.NumberSearch.{NumberFound, LiveFound};

use adt::Broken;
use adt::predicates::Predicate;
use adt::search::{Counters, search};
use geometry::range::range_of_number;
use model::Fault;
use pool::layout::{MAX_CAPACITY, capacity};

// The first hit of a number's search: its cell, its level and the place of its link.
#[derive(Clone, Copy)]
pub struct NumberHit {
    pub cell: usize,
    pub level: usize,
    pub link: usize,
}

pub fn find_number(pool: &[u16], cells: usize, number: u16) -> Result<Option<NumberHit>, Broken>
    requires { Sized pool.now cells }
    ensures { NumberFound pool.now number result }
{
    let mut hits = [0u16; MAX_CAPACITY];
    let mut counters = Counters::default();
    let range = range_of_number(number);
    search(
        pool,
        cells,
        &range,
        Predicate::InRange,
        &mut hits,
        &mut counters,
    )?;
    if counters.found == 0 {
        return Ok(None);
    }
    Ok(Some(NumberHit {
        cell: usize::from(hits[0]),
        level: counters.level,
        link: counters.link,
    }))
}

// The first hit of a number's search in a pool of so many cells.
#[derive(Clone, Copy)]
pub struct LiveHit {
    pub cells: usize,
    pub cell: usize,
    pub level: usize,
    pub link: usize,
}

// The cell of a live grant, by its number. Refuses 1, 3, 9, by the number's search alone, and 7, in this order.
pub fn find_live(pool: &[u16], number: u16) -> Result<LiveHit, Fault>
    ensures { LiveFound pool.now number result }
{
    let cells = capacity(pool).ok_or(Fault::BadPool)?;
    if number == 0 {
        return Err(Fault::ZeroNumber);
    }
    let found = find_number(pool, cells, number)?;
    let hit = found.ok_or(Fault::NotLive)?;
    Ok(LiveHit {
        cells,
        cell: hit.cell,
        level: hit.level,
        link: hit.link,
    })
}
