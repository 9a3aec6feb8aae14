// An answer in rows, a screenful at a time: which question it answers, and what has been shown of it.
use calendar::Date;
use console::output::{Stream, Unwritten};
use model::Box;

// So many grants are shown at a time.
pub const SCREEN: usize = 16;

// What questions are answered from: the bank's file, the pool that it was loaded into, and the base day, if it is known.
#[derive(Clone, Copy)]
pub struct Bank<'a> {
    pub file: &'a [u8],
    pub pool: &'a [u16],
    pub base: Option<Date>,
}

// A question that is answered in rows: who may open a door in a quarter, or which grants hold a box.
#[derive(Clone, Copy)]
pub enum Asked {
    Who { door: u16, quarter: u16 },
    Covers(Box),
}

// An answer whose rows haven't all been shown, and how many have.
#[derive(Clone, Copy)]
pub struct Pending {
    pub asked: Asked,
    pub rows: usize,
}

// The end of a screen after which there is more.
pub fn say_more(out: Stream, asked: Asked, rows: usize) -> Result<Option<Pending>, Unwritten> {
    out.put(b"more: press Enter\n\n")?;
    Ok(Some(Pending { asked, rows }))
}
