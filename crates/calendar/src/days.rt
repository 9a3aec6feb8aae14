// Days of the Gregorian calendar, and the day and time of a quarter (specs/Calendar).
// `is_date` and `is_base` are what a base day that is typed in must pass; the other functions take any date.
ghost use Rattle.std.specs.Prelude.{◌≡◌, ◌+◌, ◌<◌};
ghost use Rattle.model.specs.Values.{word_values};
ghost use Rattle.calendar.specs.Calendar.{leap_year, month_days, is_date, is_base, next_day, date_after, day_of, hour_of, minute_of};

use crate::Date;

#[tactic(auto, unfolding(crate::specs::Calendar::leap_year))]
fn is_leap(year: u16) -> bool
    ensures { result ≡ leap_year year }
{
    year % 4 == 0 && (year % 100 != 0 || year % 400 == 0)
}

#[tactic(auto, unfolding(crate::specs::Calendar::month_days))]
fn month_days(year: u16, month: u8) -> u8
    ensures { result ≡ month_days year month }
{
    match month {
        2 if is_leap(year) => 29,
        2 => 28,
        4 | 6 | 9 | 11 => 30,
        _ => 31,
    }
}

// Whether these are a day of the years 1 to 9999.
#[tactic(auto, unfolding(crate::specs::Calendar::is_date))]
pub fn is_date(year: u16, month: u8, day: u8) -> bool
    ensures { result ≡ is_date year month day }
{
    1 <= year
        && year <= 9999
        && 1 <= month
        && month <= 12
        && 1 <= day
        && day <= month_days(year, month)
}

#[tactic(auto, unfolding(crate::specs::Calendar::next_day))]
pub fn next_day(d: Date) -> Date
    requires { d.year + 1 < word_values }
    ensures { result ≡ next_day d }
{
    if d.day < month_days(d.year, d.month) {
        return Date {
            day: d.day + 1,
            ..d
        };
    }
    if d.month < 12 {
        return Date {
            month: d.month + 1,
            day: 1,
            ..d
        };
    }
    Date {
        year: d.year + 1,
        month: 1,
        day: 1,
    }
}

// The day that comes so many days after a base day: at most 682 for a quarter.
#[tactic(auto, using(crate::proofs::CalendarLaws::after_snoc, crate::proofs::CalendarLaws::after_year), unfolding(crate::specs::Calendar::date_after))]
pub fn date_after(base: Date, days: usize) -> Date
    requires { base.year + days < word_values }
    ensures { result ≡ date_after base days }
{
    let mut date = base;
    for _ in 0..days {
        date = next_day(date);
    }
    date
}

// Days since the base day. A quarter here is any number, so that the end of the last one of all has a time too.
pub fn day_of(quarter: usize) -> usize
    ensures { result ≡ day_of quarter }
{
    quarter / 96
}

pub fn hour_of(quarter: usize) -> usize
    ensures { result ≡ hour_of quarter }
{
    quarter % 96 * 15 / 60
}

pub fn minute_of(quarter: usize) -> usize
    ensures { result ≡ minute_of quarter }
{
    quarter % 96 * 15 % 60
}

// Whether quarters can be counted from a day: the last one ends in a year of four digits.
#[tactic(auto, unfolding(crate::specs::Calendar::is_base))]
pub fn is_base(d: Date) -> bool
    ensures { result ≡ is_base d }
{
    d.year <= 9999 && date_after(d, day_of(65536)).year <= 9999
}
