// Text in bytes, for everything that reads a line or prints one: numerals, decimal fields, text put at the end of a line, columns.
// Nothing here knows of a grant, and nothing is refused.
#![tactic(auto)]

pub mod columns;
pub mod put;
pub mod reading;

// How wide a field is: 8 bits or 16.
#[derive(Clone, Copy)]
pub enum Width {
    Byte,
    Word,
}
