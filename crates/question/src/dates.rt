// Reads a text as a day, `YYYY-MM-DD` (specs/Day).
ghost use Rattle.std.specs.Prelude.{◌≡◌};
ghost use Rattle.question.specs.Day.{day_form, date_of, day_in};

use crate::decimal::number_of;
use calendar::Date;
use calendar::days::is_date;

// Whether a text is as long as a day, with its two dashes.
#[tactic(auto, unfolding(crate::specs::Day::day_form))]
fn day_form(text: &[u8]) -> bool
    ensures { result ≡ day_form text.now }
{
    text.len() == 10 && text[4] == b'-' && text[7] == b'-'
}

// The day of a year, a month and a day of the month, if there is one.
#[tactic(auto, using(crate::proofs::DayLaws::month_high, crate::proofs::DayLaws::day_high), unfolding(crate::specs::Day::date_of))]
fn date_of(year: u16, month: u16, day: u16) -> Option<Date>
    ensures { result ≡ date_of year month day }
{
    let month = u8::try_from(month).ok()?;
    let day = u8::try_from(day).ok()?;
    if !is_date(year, month, day) {
        return None;
    }
    Some(Date { year, month, day })
}

// The day that is the whole text.
#[tactic(auto, using(crate::proofs::DayLaws::day_form_length), unfolding(crate::specs::Day::day_in))]
pub fn day_of_text(text: &[u8]) -> Option<Date>
    ensures { result ≡ day_in text.now }
{
    if !day_form(text) {
        return None;
    }
    let year = number_of(&text[0..4])?;
    let month = number_of(&text[5..7])?;
    let day = number_of(&text[8..10])?;
    date_of(year, month, day)
}
