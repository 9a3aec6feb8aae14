// Block read (document 01, "The grants file"): one block judged alone, and the part of the file that its records occupy.
// Any bytes are taken as a file, and none are changed. Nothing of records, n or doors is tested.
#![tactic(auto)]

pub mod part;
pub mod verdict;
