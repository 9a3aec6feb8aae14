// Reads a text as a day and time, `YYYY-MM-DD HH:MM`, and gives its quarter, counted from a base day (specs/Quarter).
ghost use Rattle.std.specs.Prelude.{◌≡◌, ◌≤◌};
ghost use Rattle.calendar.specs.Calendar.{last_year};
ghost use Rattle.question.specs.Quarter.{moment_form, days_since, days_limit, TimeInReach, minutes_added, quarter_at, time_of, quarter_of};

use crate::Rounding;
use crate::dates::day_of_text;
use crate::decimal::number_of;
use calendar::Date;
use calendar::days::{is_date, next_day};

// More days than the quarters reach.
const DAYS: usize = 683;

// Whether a text is as long as a day and time, with the blank and the colon.
#[tactic(auto, unfolding(crate::specs::Quarter::moment_form))]
fn moment_form(text: &[u8]) -> bool
    ensures { result ≡ moment_form text.now }
{
    text.len() == 16 && text[10] == b' ' && text[13] == b':'
}

// The days from the base day to a day, found by going on from the base day.
fn days_since(base: Date, day: Date) -> usize
    requires { base.year ≤ last_year }
    ensures { (result ≡ days_since base day) × (result ≤ days_limit) }
{
    let mut date = base;
    for n in 0..DAYS {
        if date == day {
            return n;
        }
        date = next_day(date);
    }
    DAYS
}

// What is added to the minutes before they are counted in quarter-hours.
fn minutes_added(rounding: Rounding) -> usize
    ensures { (result ≡ minutes_added rounding) × (result ≤ 14) }
{
    match rounding {
        Rounding::Down => 0,
        Rounding::Up => 14,
    }
}

// The quarter of a time, so many days after the base day.
#[tactic(auto, unfolding(crate::specs::Quarter::quarter_at))]
fn quarter_at(rounding: Rounding, days: usize, hour: u16, minute: u16) -> Option<u16>
    requires { TimeInReach days hour minute }
    ensures { result ≡ quarter_at rounding days hour minute }
{
    let minutes = usize::from(minute) + minutes_added(rounding);
    u16::try_from(96 * days + 4 * usize::from(hour) + minutes / 15).ok()
}

// The quarter of a day and a time.
#[tactic(auto, unfolding(crate::specs::Quarter::time_of))]
fn time_of(rounding: Rounding, base: Date, day: Date, hour: u16, minute: u16) -> Option<u16>
    requires { base.year ≤ last_year }
    ensures { result ≡ time_of rounding base day hour minute }
{
    if 23 < hour || 59 < minute {
        return None;
    }
    let days = days_since(base, day);
    quarter_at(rounding, days, hour, minute)
}

// The quarter of the day and time that are the whole text. A day before the base day has none.
#[tactic(auto, using(crate::proofs::QuarterLaws::moment_form_length, crate::proofs::QuarterLaws::date_year), unfolding(crate::specs::Quarter::quarter_of))]
pub fn quarter_of(rounding: Rounding, base: Date, text: &[u8]) -> Option<u16>
    ensures { result ≡ quarter_of rounding base text.now }
{
    if !is_date(base.year, base.month, base.day) || !moment_form(text) {
        return None;
    }
    let day = day_of_text(&text[0..10])?;
    let hour = number_of(&text[11..13])?;
    let minute = number_of(&text[14..16])?;
    time_of(rounding, base, day, hour, minute)
}
