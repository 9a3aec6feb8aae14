// The day and time of a quarter put as text, `YYYY-MM-DD HH:MM`, at the end of a line (specs/Moment).
ghost use Rattle.std.specs.Prelude.{◌≡◌, ◌++◌, ◌+◌, ◌≤◌};
ghost use Rattle.arrayvec.specs.ArrayVec.{array_vec_len};
ghost use Rattle.model.specs.Values.{word_values};
ghost use Rattle.calendar.specs.Calendar.{last_year};
ghost use Rattle.calendar.specs.Moment.{two_digits, date_text, time_text, moment_text, moment_bytes, date_bytes, time_bytes};

use crate::Date;
use crate::days::{date_after, day_of, hour_of, minute_of};
use arrayvec::ArrayVec;
use text::put::put_byte;

// The last two digits of a number.
fn put_two<const N: usize>(line: &mut ArrayVec<u8, N>, n: usize)
    requires { array_vec_len line.old + 2 ≤ N }
    ensures items { line.new.items ≡ line.old.items ++ two_digits n }
    ensures len { array_vec_len line.new ≡ array_vec_len line.old + 2 }
{
    put_byte(line, b'0' + (n / 10 % 10) as u8);
    put_byte(line, b'0' + (n % 10) as u8);
}

pub fn put_date<const N: usize>(line: &mut ArrayVec<u8, N>, d: Date)
    requires { array_vec_len line.old + date_bytes ≤ N }
    ensures items { line.new.items ≡ line.old.items ++ date_text d }
    ensures len { array_vec_len line.new ≡ array_vec_len line.old + date_bytes }
{
    put_two(line, d.year as usize / 100);
    put_two(line, d.year as usize % 100);
    put_byte(line, b'-');
    put_two(line, d.month as usize);
    put_byte(line, b'-');
    put_two(line, d.day as usize);
}

pub fn put_time<const N: usize>(line: &mut ArrayVec<u8, N>, quarter: usize)
    requires { array_vec_len line.old + time_bytes ≤ N }
    ensures items { line.new.items ≡ line.old.items ++ time_text quarter }
    ensures len { array_vec_len line.new ≡ array_vec_len line.old + time_bytes }
{
    put_two(line, hour_of(quarter));
    put_byte(line, b':');
    put_two(line, minute_of(quarter));
}

// The day and time at which a quarter starts that is counted from a base day; the one past the last is where the last ends.
pub fn put_moment<const N: usize>(line: &mut ArrayVec<u8, N>, base: Date, quarter: usize)
    requires room { array_vec_len line.old + moment_bytes ≤ N }
    requires year { base.year ≤ last_year }
    requires quarter { quarter ≤ word_values }
    ensures items { line.new.items ≡ line.old.items ++ moment_text base quarter }
    ensures len { array_vec_len line.new ≡ array_vec_len line.old + moment_bytes }
{
    put_date(line, date_after(base, day_of(quarter)));
    put_byte(line, b' ');
    put_time(line, quarter);
}
