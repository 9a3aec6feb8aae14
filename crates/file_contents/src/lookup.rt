// A grant of a file by its number (specs/Contents). A file that is refused gives none.
ghost use Rattle.std.specs.Prelude.{◌≡◌};
ghost use Rattle.grants_file.specs.File.{grants_in};
ghost use Rattle.grants_file.specs.FileSets.{Accepted};
ghost use Rattle.file_contents.specs.Contents.{numbered_of, numbered_in};

use grants_file::grants::{grant_in, total_in};
use grants_file::validate::validate;
use model::Grant;

// The grant of an accepted file with this number.
fn find_number(file: &[u8], number: u16) -> Option<Grant>
    requires { Accepted file.now }
    ensures { result ≡ numbered_of (grants_in file.now) number }
{
    for i in 0..total_in(file) {
        let g = grant_in(file, i);
        if g.number == number {
            return Some(g);
        }
    }
    None
}

// The grant with this number.
pub fn numbered(file: &[u8], number: u16) -> Option<Grant>
    ensures { result ≡ numbered_in file.now number }
{
    validate(file).ok()?;
    find_number(file, number)
}
