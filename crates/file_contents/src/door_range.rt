// What a file was cut for (specs/Contents). A file that is refused has no doors.
ghost use Rattle.std.specs.Prelude.{◌≡◌};
ghost use Rattle.file_contents.specs.Contents.{doors_given, has_door};

use grants_file::grants::doors_in;
use grants_file::validate::validate;
use model::Interval;

pub fn doors_of(file: &[u8]) -> Option<Interval>
    ensures { result ≡ doors_given file.now }
{
    validate(file).ok()?;
    Some(doors_in(file))
}

// Whether a door is one of those: only of these does the file hold every grant.
pub fn has_door(file: &[u8], door: u16) -> bool
    ensures { result ≡ has_door file.now door }
{
    match doors_of(file) {
        Some(doors) => doors.from <= door && door <= doors.to,
        None => false,
    }
}
