// The entry points that ask and change nothing: list, decide and count (document 01, "The plain book" and "Faults").
// Each takes any pool and any arguments, finds the fault itself, and leaves everything as it was where it refuses.
// What each answers and leaves is its definition in calls/specs/Calls.
#![tactic(auto)]

pub mod count;
pub mod decide;
pub mod list;
