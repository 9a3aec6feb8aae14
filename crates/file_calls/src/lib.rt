// The calls between a pool and a grants file: write, load and match (document 01, "The grants file" and "Faults").
// Each takes any pool, any bytes and any arguments, finds the fault itself, and leaves everything as it was where it refuses.
// What each answers and leaves is its definition in calls/specs/FileCalls.
#![tactic(auto)]

pub mod load;
pub mod matching;
pub mod write;
mod write_file;
