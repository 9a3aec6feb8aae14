// What the attendant's panel shows of a bank in memory: who may open a door at a quarter, and each grant as a line of a table.
// Nothing here reads or writes a file.
#![tactic(auto)]

pub mod rows;
pub mod touching;
