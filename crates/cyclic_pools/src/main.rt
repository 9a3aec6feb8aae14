// Every call ends soon on every pool (document 00, demand 1): pools through which a walk that went on would take 2^112 ways. On three of them
// the links form cycles, and a walk ends where a cell names another parent than the cell it came from. On the fourth both links of each cell
// lead to the next one, every parent is right, and a walk ends where it has met more than C cells. Each call is made on each pool, the slips'
// as slips, and answers at once; so do write, and match against the file of an empty index.
#![tactic(auto)]

use file_calls::matching::match_file;
use file_calls::write::write;
use geometry::axis::LEVELS;
use grants_file::layout::{BLOCK_BYTES, MAX_BYTES};
use index::start::start;
use model::{Fault, MAX_GRANTS};
use pool::Field;
use pool::layout::{CAPACITY, CELL_WORDS, FREE, MAX_WORDS, ROOT, place_of};
use slip_session::answer;
use slip_session::printing::{Line, print_outcome};

// The words of a pool of one cell.
const ONE_CELL: usize = MAX_WORDS - (MAX_GRANTS - 1) * CELL_WORDS;

// The cell below which there are as many as levels.
const LAST: u16 = LEVELS as u16 + 1;

fn put(pool: &mut [u16], at: usize, word: u16) {
    if at < pool.len() {
        pool[at] = word;
    }
}

// Sets the header: how many cells there are, the root, the free head.
fn header(pool: &mut [u16]) {
    put(pool, CAPACITY, MAX_GRANTS as u16);
    put(pool, ROOT, 1);
    put(pool, FREE, 1);
}

// Links a cell to two cells, and sets the parent that it names.
fn link(pool: &mut [u16], cell: u16, left: u16, right: u16, parent: u16) {
    let k = usize::from(cell);
    if k == 0 || MAX_GRANTS < k {
        return;
    }
    put(pool, place_of(k, Field::Left), left);
    put(pool, place_of(k, Field::Right), right);
    put(pool, place_of(k, Field::Parent), parent);
}

// Links a cell a level to the next one on both sides; the last cell is terminal.
fn link_both_to_next(pool: &mut [u16]) {
    for k in 1..LAST {
        link(pool, k, k + 1, k + 1, k - 1);
    }
    link(pool, LAST, 0, 0, LAST - 1);
}

fn call(rt: HostRuntime, pool: &mut [u16], lent: &mut [u16], line: &[u8]) {
    let mut out = Line::new();
    answer(pool, lent, line, &mut out);
    let _ = rt.write_all(out.as_slice());
}

// A slip of each kind.
fn each_call(rt: HostRuntime, pool: &mut [u16]) {
    let mut lent = [0u16; MAX_GRANTS];
    call(rt, pool, &mut lent, b"C");
    call(rt, pool, &mut lent, b"D 1 1 1");
    call(rt, pool, &mut lent, b"L 0 65535 0 65535 0 65535");
    call(rt, pool, &mut lent, b"R 5");
    call(rt, pool, &mut lent, b"G 5 1 1 0 9 0 9 0 9");
}

fn say(rt: HostRuntime, outcome: Result<(), Fault>) {
    let mut out = Line::new();
    print_outcome(outcome, &mut out);
    let _ = rt.write_all(out.as_slice());
}

fn write_all_doors(rt: HostRuntime, pool: &[u16]) {
    let mut bytes = [0u8; MAX_BYTES];
    let written = write(pool, 0, 65535, &mut bytes);
    say(rt, written.and(Ok(())));
}

fn match_empty(rt: HostRuntime, pool: &[u16]) {
    let mut empty = [0u16; ONE_CELL];
    let _ = start(&mut empty);
    let mut file = [0u8; BLOCK_BYTES];
    let _ = write(&empty, 0, 65535, &mut file);
    let matched = match_file(pool, &file);
    say(rt, matched.and(Ok(())));
}

// Every call but start and load, which walk nothing.
fn all_calls(rt: HostRuntime, pool: &mut [u16]) {
    each_call(rt, pool);
    write_all_doors(rt, pool);
    match_empty(rt, pool);
}

// Every word is 1, and so every link is to the first cell.
fn try_first(rt: HostRuntime) {
    let mut pool = [1u16; MAX_WORDS];
    header(&mut pool);
    link(&mut pool, 1, 1, 1, 0);
    all_calls(rt, &mut pool);
}

// Each of three cells has the other two.
fn try_three(rt: HostRuntime) {
    let mut pool = [0u16; MAX_WORDS];
    header(&mut pool);
    link(&mut pool, 1, 2, 3, 0);
    link(&mut pool, 2, 3, 1, 1);
    link(&mut pool, 3, 1, 2, 1);
    all_calls(rt, &mut pool);
}

// Each of two cells has the other on both sides.
fn try_two(rt: HostRuntime) {
    let mut pool = [0u16; MAX_WORDS];
    header(&mut pool);
    link(&mut pool, 1, 2, 2, 0);
    link(&mut pool, 2, 1, 1, 1);
    all_calls(rt, &mut pool);
}

// No cycle: the last cell is met in 2^112 ways, each of them right.
fn try_chain(rt: HostRuntime) {
    let mut pool = [0u16; MAX_WORDS];
    header(&mut pool);
    link_both_to_next(&mut pool);
    all_calls(rt, &mut pool);
}

fn main(rt: HostRuntime) {
    try_first(rt);
    try_three(rt);
    try_two(rt);
    try_chain(rt);
}
