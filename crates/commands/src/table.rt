// Grants as rows of a table.
use console::output::{Stream, Unwritten};
use model::Grant;
use panel::rows::{grant_row, heads_row};

pub fn say_heads(out: Stream) -> Result<(), Unwritten> {
    out.put(heads_row().as_slice())
}

pub fn say_grant(out: Stream, g: Grant) -> Result<(), Unwritten> {
    out.put(grant_row(g).as_slice())
}
