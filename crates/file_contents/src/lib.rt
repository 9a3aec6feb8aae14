// What a file gives to one who asks for a part of it (specs/Contents): its doors, and a grant by its number. Any bytes are taken as a file; one
// that is refused gives nothing.
#![tactic(auto)]

pub mod door_range;
pub mod lookup;
