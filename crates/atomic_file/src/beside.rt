// The new file's name while it is written: the one that it will have, `.new` and a digit (specs/Beside). A folder can't be listed, so the ten
// names are all that a write which was ended can leave behind.
ghost use Rattle.std.specs.Prelude.{◌≡◌};
ghost use Rattle.atomic_file.specs.Beside.{beside_name};

use crate::path::{LONGEST_PATH, open_as, open_read};
use arrayvec::ArrayVec;
use console::errors::Failure;
use std::fs::{File, OpenOptions};
use text::put::{put_byte, put_text};

pub const FIRST: u8 = b'0';

pub const LAST: u8 = b'9';

// The name with one digit: empty where the path is too long for it, which no file has for a name.
pub fn beside(path: &[u8], digit: u8) -> ArrayVec<u8, 4096>
    ensures { result.items ≡ beside_name path.now digit }
{
    let mut name = ArrayVec::new();
    if path.len() <= LONGEST_PATH {
        put_text(&mut name, path);
        put_text(&mut name, b".new");
        put_byte(&mut name, digit);
    }
    name
}

// Whether a file of that name is there.
pub fn is_left(rt: HostRuntime, path: &[u8], digit: u8) -> bool {
    match open_read(rt, beside(path, digit).as_slice()) {
        Ok(_) => true,
        Err(failure) => failure == Failure::NoAccess,
    }
}

// Makes the file, if none of that name is there: open for writing.
fn make_at(rt: HostRuntime, path: &[u8], digit: u8) -> Result<File, Failure> {
    open_as(
        rt,
        OpenOptions::new().write(true).create_new(true),
        beside(path, digit).as_slice(),
    )
}

// The new file, open for writing, and its digit.
#[derive(Drop)]
pub struct Made {
    pub file: File,
    pub digit: u8,
}

// Makes the file under the first name that no other has.
pub fn make(rt: HostRuntime, path: &[u8]) -> Result<Made, Failure> {
    for digit in FIRST..=LAST {
        match make_at(rt, path, digit) {
            Ok(file) => return Ok(Made { file, digit }),
            Err(Failure::Exists) => {}
            Err(failure) => return Err(failure),
        }
    }
    Err(Failure::Exists)
}
