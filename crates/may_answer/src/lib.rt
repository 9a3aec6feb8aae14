// What the attendant's panel answers to `may`: whether a staff number may open a door at a quarter, and the whole grant that decides.
// Nothing here searches, reads or writes, and nothing is refused.
#![tactic(auto)]

pub mod printing;
