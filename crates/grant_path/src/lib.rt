// The way from a grant's cell up to the root of the tree, for support engineers who look into a slow bank (document 02, card 6).
// Nothing here reads or writes a file.
#![tactic(auto)]

pub mod ancestors;
pub mod rows;
