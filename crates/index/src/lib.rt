// The entry points of the grant index: start, grant and revoke (document 01, "The plain book" and "Faults").
// Each takes any pool and any arguments, finds the fault itself, and leaves everything as it was where it refuses.
// What each answers and leaves is its definition in calls/specs/Calls. Those that ask stand in the crate queries, those that know of files in file_calls.
#![tactic(auto)]

pub mod find;
pub mod grant;
pub mod revoke;
pub mod start;
