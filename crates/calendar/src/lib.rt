// Days of the Gregorian calendar, and the day and time of a quarter that is counted from a base day (document 01, "The plain book").
// Nothing is refused.
#![tactic(auto)]

pub mod days;
pub mod moment;
pub mod note;

// A day of the Gregorian calendar.
#[derive(Clone, Copy, PartialEq, Eq)]
pub struct Date {
    pub year: u16,
    pub month: u8,
    pub day: u8,
}
